//! Whether a row holds.
ghost use Rattle.std.specs.Prelude.{◌≡◌, string_bytes};
ghost use Rattle.std.specs.List.{list_all};
ghost use Rattle.rows.specs.Holds.{same_bytes, stands, is_absent, holds};

use crate::row::{Seen, Told, ToldFile};
use flow_io::MemDesk;

/// Whether bytes are the same in the same order.
fn same_bytes(a: &[u8], b: &[u8]) -> bool
    ensures { result ≡ same_bytes a.now b.now }
{
    a == b
}

/// Whether a file of the desk is there and holds what is told of it.
pub fn stands(desk: &MemDesk, told: &ToldFile) -> bool
    ensures { result ≡ stands desk.now.files told.now }
{
    match desk.file(told.name.as_str()) {
        Some(seen) => same_bytes(seen, told.bytes.as_slice()),
        None => false,
    }
}

/// Whether the desk has no file of a name.
pub fn is_absent(desk: &MemDesk, name: &str) -> bool
    ensures { result ≡ is_absent desk.now.files name.now }
{
    desk.file(name).is_none()
}

fn all_stand(desk: &MemDesk, files: &[ToldFile]) -> bool
    ensures { result ≡ list_all (λ file. stands desk.now.files file) files.now }
{
    files.iter().all(|file| stands(desk, file))
}

fn all_absent(desk: &MemDesk, names: &[String]) -> bool
    ensures { result ≡ list_all (λ name. is_absent desk.now.files (string_bytes name)) names.now }
{
    names.iter().all(|name| is_absent(desk, name.as_str()))
}

/// Whether a row holds: all its commands ran, and the status, the line and each file are as told.
pub fn holds(told: &Told, seen: &Seen, desk: &MemDesk) -> bool
    ensures { result ≡ holds told.now seen.now desk.now }
{
    let ran = seen.left == 0;
    let status = seen.status == told.status;
    let line = same_bytes(seen.line.as_slice(), told.line.as_slice());
    let files = all_stand(desk, told.files.as_slice());
    let absent = all_absent(desk, told.absent.as_slice());
    ran && status && line && files && absent
}
