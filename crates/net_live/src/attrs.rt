//! Tests of names and attributes.
ghost use Rattle.std.specs.Prelude.{◌≡◌, not};
ghost use Rattle.std.specs.List.{list_all};
ghost use Rattle.net_core.specs.Valid as valid;
ghost use Rattle.net_live.specs.Fitting.{attr_fits, attrs_fit, is_counted};

use net_core::Attr;

fn is_white(byte: u8) -> bool
    ensures { result ≡ valid.is_white byte }
{
    byte == 32 || byte == 9 || byte == 10 || byte == 13
}

fn has_no_white(bytes: &[u8]) -> bool
    ensures { result ≡ list_all (λ b. not (valid.is_white b)) bytes.now }
{
    bytes.iter().all(|byte| !is_white(*byte))
}

/// Whether the bytes are an identifier: `\` or `$`, and at least one more byte, none of them white.
pub fn is_identifier(bytes: &[u8]) -> bool
    ensures { result ≡ valid.is_identifier bytes.now }
{
    match bytes {
        [] => false,
        [_] => false,
        [first, more @ ..] => (*first == 92 || *first == 36) && has_no_white(more),
    }
}

/// Whether a number of 32 bits can name each of so many items.
fn is_counted<T>(items: &[T]) -> bool
    ensures { result ≡ is_counted items.now }
{
    items.len() <= 4_294_967_295
}

/// Whether a string has no bits, and bits have no string.
fn attr_fits(attr: &Attr) -> bool
    ensures { result ≡ attr_fits attr.now }
{
    let bits = attr.bits.as_slice();
    let value = attr.value.as_slice();
    let is_alone = if attr.is_text {
        bits.is_empty()
    } else {
        value.is_empty()
    };
    is_identifier(attr.name.as_slice()) && is_alone && is_counted(bits)
}

/// Whether these can be the attributes of an item.
pub fn attrs_fit(attrs: &[Attr]) -> bool
    ensures { result ≡ attrs_fit attrs.now }
{
    each_fits(attrs) && is_counted(attrs)
}

fn each_fits(attrs: &[Attr]) -> bool
    ensures { result ≡ list_all attr_fits attrs.now }
{
    attrs.iter().all(|attr| attr_fits(attr))
}
