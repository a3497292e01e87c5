// Start, add, remove and lapse (01, 'The sender's table'; for commands the refusals are 1, 3, 2).
ghost use Rattle.std.specs.Prelude.{◌≡◌, ◌<◌, map, IfOk};
ghost use Rattle.std.specs.Result.{result_unwrap_or};
ghost use Rattle.sender.specs.Answers.{told};
ghost use Rattle.sender.specs.Calls.{outcome_of};
ghost use Rattle.sender.specs.Calls.Call.{AddSlot, RemoveSlot, Lapse};
ghost use Rattle.sender.specs.Commands.{added_to, fallen, fresh_of, idle_slot, removed_from, slot_asked, start_of};

use crate::refusals::Refusal;
use crate::table;
use crate::table::{Slot, State, Table};
use packet::kinds;

fn idle_slot(kind: u8) -> Slot
    ensures { result ≡ idle_slot kind }
{
    Slot {
        state: State::Idle,
        number: kinds::idle_number(kind),
    }
}

fn fresh(kind: u8, count: u8) -> Table
    ensures { result ≡ fresh_of kind count }
{
    Table {
        slots: [idle_slot(kind); 64],
        count,
        wait: false,
        remembered: 0,
        kind,
    }
}

// The empty group, which a refused start leaves.
pub fn empty(kind: u8) -> Table
    ensures { result ≡ (start_of kind 0).table }
{
    fresh(kind, 0)
}

pub fn start(kind: u8, count: u32) -> Result<Table, Refusal>
    ensures told { result ≡ told (start_of kind count) }
    ensures left { result_unwrap_or result (start_of kind 0).table ≡ (start_of kind count).table }
{
    if count == 0 || count > 64 {
        return Err(Refusal::OutOfRange);
    }
    Ok(fresh(kind, count as u8))
}

// A command's slot: 1, then 3.
fn slot_of(table: Table, slot: u32) -> Result<usize, Refusal>
    ensures value { result ≡ slot_asked table slot }
    ensures within { IfOk result (λ at. at < 64) }
{
    let at = slot as usize;
    if at >= table::size(table.count) {
        return Err(Refusal::NoSlot);
    }
    if table.wait {
        return Err(Refusal::WaitOpen);
    }
    Ok(at)
}

fn added_to(table: Table, at: usize) -> Table
    requires { at < 64 }
    ensures { result ≡ added_to table at }
{
    let mut slots = table.slots;
    let n = table::size(table.count);
    slots[at] = Slot {
        state: State::Add,
        number: table::members(&table.slots[..n]),
    };
    Table { slots, ..table }
}

pub fn add(table: Table, slot: u32) -> Result<Table, Refusal>
    ensures told { result ≡ told (outcome_of table (AddSlot slot)) }
    ensures left { result_unwrap_or result table ≡ (outcome_of table (AddSlot slot)).table }
{
    let at = slot_of(table, slot)?;
    if table::is_member(table.slots[at].state) {
        return Err(Refusal::NotAllowed);
    }
    Ok(added_to(table, at))
}

// 'Higher numbers fall by one.'
fn fall(slot: Slot, number: u8) -> Slot
    ensures { result ≡ fallen number slot }
{
    if table::is_member(slot.state) && number < slot.number {
        Slot {
            number: slot.number - 1,
            ..slot
        }
    } else {
        slot
    }
}

fn fall_in(slots: &mut [Slot], number: u8)
    ensures { slots.new ≡ map (λ s. fallen number s) slots.old }
{
    for slot in slots {
        *slot = fall(*slot, number);
    }
}

fn removed_from(table: Table, at: usize) -> Table
    requires { at < 64 }
    ensures { result ≡ removed_from table at }
{
    let n = table::size(table.count);
    let mut slots = table.slots;
    fall_in(&mut slots[..n], table.slots[at].number);
    slots[at] = idle_slot(table.kind);
    Table {
        slots,
        wait: true,
        ..table
    }
}

pub fn remove(table: Table, slot: u32) -> Result<Table, Refusal>
    ensures told { result ≡ told (outcome_of table (RemoveSlot slot)) }
    ensures left { result_unwrap_or result table ≡ (outcome_of table (RemoveSlot slot)).table }
{
    let at = slot_of(table, slot)?;
    if !table::is_member(table.slots[at].state) {
        return Err(Refusal::NotAllowed);
    }
    Ok(removed_from(table, at))
}

pub fn lapse(table: Table) -> Result<Table, Refusal>
    ensures told { result ≡ told (outcome_of table Lapse) }
    ensures left { result_unwrap_or result table ≡ (outcome_of table Lapse).table }
{
    if !table.wait {
        return Err(Refusal::NotAllowed);
    }
    Ok(Table {
        wait: false,
        ..table
    })
}
