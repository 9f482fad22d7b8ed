//! What a node shows on the values of the nets.
ghost use Rattle.std.specs.Prelude.{◌≡◌, ℕ, ◌+◌, ◌<◌, ◌≤◌, Bool, List, Some, length, slice_get};
ghost use Rattle.cell_table.specs.Row.{HaveValues};
ghost use Rattle.net_core.specs.declared.cells.Comb.{Comb};
ghost use Rattle.net_core.specs.declared.cells.Reg.{Reg};
ghost use Rattle.net_core.specs.declared.mems.Mem.{Mem};
ghost use Rattle.net_core.specs.declared.mems.RdPort.{RdPort};
ghost use Rattle.net_core.specs.declared.rams.RamCell.{RamCell};
ghost use Rattle.net_core.specs.declared.rams.SlotUse.{SlotUse};
ghost use Rattle.net_core.specs.Logic.{comb_shows};
ghost use Rattle.net_core.specs.Nodes.{Node, comb_node};
ghost use Rattle.net_core.specs.Values.{bit_at};
ghost use Rattle.picked_run.specs.States.{key_of, comb_number, reg_number, mem_number, ram_number};
ghost use Rattle.ram_step.specs.Moments.{valuation};
ghost use Rattle.sim_cells.specs.Choices.{taken};
ghost use Rattle.sim_settle.specs.declared.places.NodePlace.TheVariants as place;
ghost use Rattle.sim_settle.specs.Places.{node_at, HasNode};
ghost use Rattle.sim_settle.specs.Working.{PlaceSays};
ghost use Rattle.sim_state.specs.SimStates.{HasFewCells, IsStateOfCells};

use net_core::Module;
use ram_step::PickKey;
use sim_settle::{NodePlace, show_comb};
use sim_state::SimState;

/// What the node at a place shows, bit by bit. `picks` is room for as many bits. It takes no memory.
pub(crate) fn show(
    module: &Module,
    state: &SimState,
    seed: u64,
    event: u64,
    at: NodePlace,
    values: &[bool],
    picks: &mut [bool],
    out: &mut [bool],
)
    requires state { IsStateOfCells «module».now state.now }
    requires node { HasNode «module».now at }
    requires nets { (p : Node) → node_at «module».now at ≡ Some p → HaveValues p.needs values.now }
    requires picks { (p : Node) → node_at «module».now at ≡ Some p → length picks.old ≡ length p.drives }
    requires out { (p : Node) → node_at «module».now at ≡ Some p → length out.old ≡ length p.drives }
    ensures { (k : ℕ) → k < length out.new → PlaceSays «module».now seed event state.now at (valuation values.now) k (bit_at out.new k) }
{
    match at {
        NodePlace::Comb(comb) => show_logic(module, seed, event, comb, values, picks, out),
        NodePlace::Reg(reg) => {
            let key = reg_key(module, seed, event, reg);
            state.show_register(module, reg as usize, values, &key, out);
        }
        NodePlace::Read { mem, port } => {
            let key = mem_key(module, seed, event, mem);
            state.show_read(module, mem as usize, port as usize, values, &key, out);
        }
        NodePlace::Slot { cell, slot } => {
            let key = ram_key(module, seed, event, cell);
            state.show_slot(module, cell as usize, slot, values, &key, out);
        }
    }
}

/// What a logic cell shows.
fn show_logic(
    module: &Module,
    seed: u64,
    event: u64,
    comb: u32,
    values: &[bool],
    picks: &mut [bool],
    out: &mut [bool],
)
    requires comb { comb < length «module».now.combs }
    requires nets { (c : Comb) → slice_get «module».now.combs comb ≡ Some c → HaveValues (comb_node c).needs values.now }
    requires picks { (c : Comb) → slice_get «module».now.combs comb ≡ Some c → length picks.old ≡ length c.y }
    requires out { (c : Comb) → slice_get «module».now.combs comb ≡ Some c → length out.old ≡ length c.y }
    ensures { (c : Comb) → slice_get «module».now.combs comb ≡ Some c
        → (k : ℕ) → k < length out.new → bit_at out.new k ≡ taken (key_of seed event (comb_number comb)) k (comb_shows c (valuation values.now) k) }
{
    let cell = &module.combs.as_slice()[comb as usize];
    let key = PickKey {
        seed,
        event,
        cell: 1 + comb as u64,
    };
    show_comb(cell, values, &key, picks, out);
}

/// The key of the picks of a register.
fn reg_key(module: &Module, seed: u64, event: u64, reg: u32) -> PickKey
    requires { HasFewCells «module».now }
    ensures { result ≡ key_of seed event (reg_number «module».now reg) }
{
    let first = 1 + module.combs.as_slice().len() as u64;
    PickKey {
        seed,
        event,
        cell: first + reg as u64,
    }
}

/// The key of the picks of a memory.
fn mem_key(module: &Module, seed: u64, event: u64, mem: u32) -> PickKey
    requires { HasFewCells «module».now }
    ensures { result ≡ key_of seed event (mem_number «module».now mem) }
{
    let first = 1 + module.combs.as_slice().len() as u64 + module.regs.as_slice().len() as u64;
    PickKey {
        seed,
        event,
        cell: first + mem as u64,
    }
}

/// The key of the picks of a RAM cell.
fn ram_key(module: &Module, seed: u64, event: u64, cell: u32) -> PickKey
    requires { HasFewCells «module».now }
    ensures { result ≡ key_of seed event (ram_number «module».now cell) }
{
    let first = 1
        + module.combs.as_slice().len() as u64
        + module.regs.as_slice().len() as u64
        + module.mems.as_slice().len() as u64;
    PickKey {
        seed,
        event,
        cell: first + cell as u64,
    }
}
