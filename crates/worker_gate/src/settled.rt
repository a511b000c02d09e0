//! What all workers left, put together.

ghost use Rattle.std.specs.Prelude.{◌≡◌, ◌<◌, ◌≤◌, ◌+◌, ◌^◌, ◌||◌, [], IfOk, length, map, slice_set, Some, None, replicate, vec_capacity};
ghost use Rattle.job_rules.specs.Gathered.{flat, put_all};
ghost use Rattle.worker_gate.specs.Settled.{items_of, cells_in, seat_of, is_wanting, any_wanting, parts_of, Closed, SettlesAll};
ghost use Rattle.mutant_table.specs.Seats.{AreSeats, AreSeatsAt, cells_of};

use crate::ends::{CellEnd, Job, WorkEnd};
use crate::outer::Hands;
use class_model::Memory;
use mt_edge::{EdgeFault, Meter};
use mutant_table::{ClaimSeat, ClaimTable};
use std::mem;

// What workers left, by its parts, in the order of the workers; and whether memory ran out in some.
#[derive(Drop)]
struct LeftParts<M, F> {
    seats: Vec<ClaimSeat>,
    lists: Vec<Vec<(u64, CellEnd<M, F>)>>,
    wanting: bool,
}

fn is_wanting(fault: Option<EdgeFault>) -> bool
    ensures { result ≡ is_wanting fault }
{
    match fault {
        None => false,
        Some(EdgeFault::Failed) => false,
        Some(EdgeFault::Memory) => true,
    }
}

fn either(a: bool, b: bool) -> bool
    ensures { result ≡ (a || b) }
{
    a || b
}

// Takes what workers left apart, and joins the parts of the meter.
fn take_apart<C: Drop, M: Drop, F: Drop>(
    mut ends: Vec<WorkEnd<C, M, F>>,
    mut seats: Vec<ClaimSeat>,
    mut lists: Vec<Vec<(u64, CellEnd<M, F>)>>,
    meter: &mut Meter,
) -> LeftParts<M, F>
    requires seats_room { length ends.items ≤ vec_capacity seats }
    requires lists_room { length ends.items ≤ vec_capacity lists }
    requires no_seats { seats.items ≡ [] }
    requires no_lists { lists.items ≡ [] }
    requires bound { meter.old + parts_of ends.items < 2 ^ 64 }
    ensures seats { result.seats.items ≡ map seat_of ends.items }
    ensures lists { result.lists.items ≡ map cells_in ends.items }
    ensures wanting { result.wanting ≡ any_wanting ends.items }
    ensures meter { meter.new ≡ meter.old + parts_of ends.items }
{
    let mut wanting = false;
    while let Some(end) = ends.pop() {
        let WorkEnd { job, cells, fault } = end;
        let Job {
            hands: _,
            part,
            seat,
            worker: _,
        } = job;
        meter.join(part);
        wanting = either(is_wanting(fault), wanting);
        seats.push_reserved(seat);
        lists.push_reserved(cells);
    }
    ends.destroy_empty();
    seats.reverse();
    lists.reverse();
    LeftParts {
        seats,
        lists,
        wanting,
    }
}

// Puts an end at the number of its cell. Every number is a cell's, but that isn't asked here.
fn place_cell<M: Drop, F: Drop>(places: &mut [Option<CellEnd<M, F>>], cell: (u64, CellEnd<M, F>))
    ensures { places.new ≡ slice_set places.old cell.0 (Some cell.1) }
{
    let (number, end) = cell;
    let at = number as usize;
    if at < places.len() {
        let _none = mem::replace(&mut places[at], Some(end));
    }
}

fn place_list<M: Drop, F: Drop>(
    places: &mut [Option<CellEnd<M, F>>],
    list: Vec<(u64, CellEnd<M, F>)>,
)
    ensures { places.new ≡ put_all list.items places.old }
{
    for cell in list {
        place_cell(places, cell);
    }
}

fn place_lists<M: Drop, F: Drop>(
    places: &mut [Option<CellEnd<M, F>>],
    lists: Vec<Vec<(u64, CellEnd<M, F>)>>,
)
    ensures { places.new ≡ put_all (flat (map items_of lists.items)) places.old }
{
    for list in lists {
        place_list(places, list);
    }
}

// Closes the table, and puts the ends of the cells in their order.
fn close_on<M: Drop, F: Drop>(
    table: ClaimTable,
    seats: Vec<ClaimSeat>,
    lists: Vec<Vec<(u64, CellEnd<M, F>)>>,
    mut places: Vec<Option<CellEnd<M, F>>>,
) -> Result<Vec<Option<CellEnd<M, F>>>, Memory>
    requires seated { AreSeats table seats.items }
    requires places { places.items ≡ replicate (cells_of table) None }
    ensures { IfOk result (Closed table seats.items lists.items) }
{
    match table.close(seats) {
        Ok(_end) => {
            place_lists(places.as_mut_slice(), lists);
            Ok(places)
        }
        Err(_all) => Err(Memory),
    }
}

/// Closes the table on what all workers left, and puts the ends of the cells in their order. The
/// memory for it is handed in: room for seats and for lists, and a place for each cell.
pub fn settle<C: Hands + Drop>(
    table: ClaimTable,
    ends: Vec<WorkEnd<C, C::Made, C::Found>>,
    seats: Vec<ClaimSeat>,
    lists: Vec<Vec<(u64, CellEnd<C::Made, C::Found>)>>,
    places: Vec<Option<CellEnd<C::Made, C::Found>>>,
    meter: &mut Meter,
) -> Result<Vec<Option<CellEnd<C::Made, C::Found>>>, Memory>
    requires seats_room { length ends.items ≤ vec_capacity seats }
    requires lists_room { length ends.items ≤ vec_capacity lists }
    requires no_seats { seats.items ≡ [] }
    requires no_lists { lists.items ≡ [] }
    requires bound { meter.old + parts_of ends.items < 2 ^ 64 }
    requires some { 0 < length ends.items }
    requires seated { AreSeatsAt table.table.shared.table_id table.table.shared.key
        (map seat_of ends.items) }
    requires places { places.items ≡ replicate table.table.shared.key.cells None }
    ensures meter { meter.new ≡ meter.old + parts_of ends.items }
    ensures settled { IfOk result (SettlesAll C.reading table.table.shared.table_id
        table.table.shared.key ends.items) }
{
    let LeftParts {
        seats,
        lists,
        wanting,
    } = take_apart(ends, seats, lists, meter);
    if wanting {
        return Err(Memory);
    }
    close_on(table, seats, lists, places)
}
