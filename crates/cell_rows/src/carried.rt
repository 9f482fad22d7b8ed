//! The outputs of cells that are kept as they are.
ghost use Rattle.std.specs.Prelude.{◌≡◌};
ghost use Rattle.cell_rows.specs.Carried as table;

const ALU: &[u8] = b"$alu";

const FA: &[u8] = b"$fa";

const LCU: &[u8] = b"$lcu";

const X: &[u8] = b"\\X";

const Y: &[u8] = b"\\Y";

const CO: &[u8] = b"\\CO";

const Q: &[u8] = b"\\Q";

/// The cells whose output is Y.
static Y_CELLS: [&[u8]; 24] = [
    b"$mul",
    b"$div",
    b"$mod",
    b"$divfloor",
    b"$modfloor",
    b"$pow",
    b"$shift",
    b"$shiftx",
    b"$sshl",
    b"$sshr",
    b"$pos",
    b"$neg",
    b"$slice",
    b"$concat",
    b"$bmux",
    b"$demux",
    b"$bwmux",
    b"$lut",
    b"$macc",
    b"$anyconst",
    b"$anyseq",
    b"$allconst",
    b"$allseq",
    b"$initstate",
];

/// The cells whose output is Q.
static Q_CELLS: [&[u8]; 9] = [
    b"$dlatch",
    b"$adlatch",
    b"$dlatchsr",
    b"$sr",
    b"$ff",
    b"$dffsr",
    b"$dffsre",
    b"$aldff",
    b"$aldffe",
];

/// The cells without outputs.
static SILENT_CELLS: [&[u8]; 8] = [
    b"$assert",
    b"$assume",
    b"$cover",
    b"$live",
    b"$fair",
    b"$print",
    b"$check",
    b"$scopeinfo",
];

/// The outputs of cells.
#[derive(Clone, Copy, Debug, PartialEq, Eq)]
pub enum Outputs {
    Y,
    Q,
    /// X, Y and CO.
    Alu,
    /// X and Y.
    Adder,
    /// CO.
    Carry,
    Nothing,
}

/// Whether a cell of this type that is kept as it is, and is no instance, drives the pin. A cell
/// that is kept for the signs of its operands drives Y. It takes no memory.
#[tactic(auto, using(crate::proofs::Driven::drives_is))]
pub fn drives(cell: &[u8], pin: &[u8]) -> bool
    ensures { result ≡ table.drives cell.now pin.now }
{
    has_output(outputs_of(cell), pin)
}

/// The outputs of a type of cell, Y where it is none of the table.
#[tactic(auto, unfolding(crate::specs::Carried::outputs_of))]
fn outputs_of(cell: &[u8]) -> Outputs
    ensures { result ≡ table.outputs_of cell.now }
{
    if is_y_cell(cell) {
        Outputs::Y
    } else if ALU == cell {
        Outputs::Alu
    } else if FA == cell {
        Outputs::Adder
    } else if LCU == cell {
        Outputs::Carry
    } else if is_q_cell(cell) {
        Outputs::Q
    } else if is_silent_cell(cell) {
        Outputs::Nothing
    } else {
        Outputs::Y
    }
}

/// Whether the pin is one of the outputs.
fn has_output(outputs: Outputs, pin: &[u8]) -> bool
    ensures { result ≡ table.has_output outputs pin.now }
{
    match outputs {
        Outputs::Y => pin == Y,
        Outputs::Q => pin == Q,
        Outputs::Alu => pin == X || pin == Y || pin == CO,
        Outputs::Adder => pin == X || pin == Y,
        Outputs::Carry => pin == CO,
        Outputs::Nothing => false,
    }
}

#[tactic(auto, unfolding(crate::specs::Carried::y_cells))]
fn is_y_cell(cell: &[u8]) -> bool
    ensures { result ≡ table.is_among table.y_cells cell.now }
{
    Y_CELLS.contains(&cell)
}

#[tactic(auto, unfolding(crate::specs::Carried::q_cells))]
fn is_q_cell(cell: &[u8]) -> bool
    ensures { result ≡ table.is_among table.q_cells cell.now }
{
    Q_CELLS.contains(&cell)
}

#[tactic(auto, unfolding(crate::specs::Carried::silent_cells))]
fn is_silent_cell(cell: &[u8]) -> bool
    ensures { result ≡ table.is_among table.silent_cells cell.now }
{
    SILENT_CELLS.contains(&cell)
}
