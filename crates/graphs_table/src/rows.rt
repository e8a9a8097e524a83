//! Calls to a table of invocations, which has no rows at first. Moments are microseconds.
//!
//! - `add ID MICROS`: a row more, with this deadline; its place, or why there is none.
//! - `many COUNT`: so many rows more, with the ids `u-0`, `u-1` and so on, each with its number as
//!   deadline; how many rows there are then.
//! - `begin PLACE MICROS`, `end PLACE MICROS`: the finalization of a row begins or ends.
//! - `deadline PLACE MICROS`, `tag PLACE`: an active row gets another deadline, or a tag.
//! - `due MICROS`: the place of the row that is due next.
//! - `find ID`: the place of the row with this id.
//! - `row PLACE`: its state, when its finalization began and ended, and how many tags it has.
use crate::numbers::{Answers, Stop, count_text, number, two, word};
use invocations::{AddFault, Invocation, Table};
use names_realms::{Bytes, InvocationId, Listed, Moment, Pair, Realm, State};
use std::alloc::Global;

impl Answers for Table {
    fn answer(&mut self, alloc: Global, kind: &str, rest: &str) -> Result<Vec<u8>, Stop> {
        match kind {
            "add" => add(alloc, self, rest),
            "many" => many(alloc, self, rest),
            "begin" => begin(alloc, self, rest),
            "end" => end(alloc, self, rest),
            "deadline" => deadline(alloc, self, rest),
            "tag" => tag(alloc, self, rest),
            "due" => place_text(alloc, self.next_due(moment(rest)?)),
            "find" => place_text(
                alloc,
                self.find(&InvocationId::parse(alloc, rest.as_bytes())?),
            ),
            "row" => row(alloc, self, rest),
            _ => Err(Stop::Odd),
        }
    }
}

fn moment(micros: &str) -> Result<Moment, Stop> {
    Ok(Moment::new(i64::from(number(micros)?)))
}

/// The microseconds of a moment, or -1 where there is none.
fn micros_of(moment: Option<Moment>) -> i64 {
    match moment {
        Some(moment) => moment.micros(),
        None => -1,
    }
}

/// A place and a moment, as two words.
fn place_and_moment(words: &str) -> Result<(u32, Moment), Stop> {
    let (place, micros) = two(words)?;
    Ok((number(place)?, moment(micros)?))
}

fn place_text(alloc: Global, place: Option<u32>) -> Result<Vec<u8>, Stop> {
    match place {
        Some(place) => count_text(alloc, place as usize, ""),
        None => word(alloc, "none"),
    }
}

/// Adds an active row, if it can be added.
fn add_row(
    alloc: Global,
    table: &mut Table,
    id: &str,
    deadline: Moment,
) -> Result<Result<u32, AddFault>, Stop> {
    let row = Invocation {
        id: InvocationId::parse(alloc, id.as_bytes())?,
        realm: Realm::parse(alloc, b"proj:ci")?,
        creator: Bytes::new(Vec::new(alloc)),
        created: Moment::new(0),
        deadline,
        started: None,
        finished: None,
        state: State::Active,
        tags: Listed::new(Vec::new(alloc)),
    };
    match table.prepare_add(alloc, &row.id) {
        Ok(()) => Ok(Ok(table.add_prepared(row))),
        Err(fault) => Ok(Err(fault)),
    }
}

fn add(alloc: Global, table: &mut Table, words: &str) -> Result<Vec<u8>, Stop> {
    let (id, micros) = two(words)?;
    match add_row(alloc, table, id, moment(micros)?)? {
        Ok(place) => count_text(alloc, place as usize, ""),
        Err(AddFault::Taken { place }) => count_text(alloc, place as usize, " has it"),
        Err(AddFault::Full { count }) => count_text(alloc, count as usize, " are the most"),
        Err(AddFault::Memory) => Err(Stop::Memory),
    }
}

fn many(alloc: Global, table: &mut Table, count: &str) -> Result<Vec<u8>, Stop> {
    for each in 0..number(count)? {
        let id = format!(in alloc; "u-{each}")?;
        if add_row(alloc, table, id.as_str(), Moment::new(i64::from(each)))?.is_err() {
            return Err(Stop::Odd);
        }
    }
    count_text(alloc, table.count() as usize, "")
}

fn begin(alloc: Global, table: &mut Table, words: &str) -> Result<Vec<u8>, Stop> {
    let (place, moment) = place_and_moment(words)?;
    match table.state_at(place) {
        Some(State::Active) => {
            table.begin_final(place, moment);
            word(alloc, "done")
        }
        _ => word(alloc, "not active"),
    }
}

fn end(alloc: Global, table: &mut Table, words: &str) -> Result<Vec<u8>, Stop> {
    let (place, moment) = place_and_moment(words)?;
    match table.state_at(place) {
        Some(State::Finalizing) => {
            table.set_final(place, moment);
            word(alloc, "done")
        }
        _ => word(alloc, "not finalizing"),
    }
}

fn deadline(alloc: Global, table: &mut Table, words: &str) -> Result<Vec<u8>, Stop> {
    let (place, moment) = place_and_moment(words)?;
    match table.state_at(place) {
        Some(State::Active) => {
            table.set_deadline(place, moment);
            word(alloc, "done")
        }
        _ => word(alloc, "not active"),
    }
}

fn tag(alloc: Global, table: &mut Table, place: &str) -> Result<Vec<u8>, Stop> {
    let place = number(place)?;
    match table.state_at(place) {
        Some(State::Active) => {
            let tag = Pair::read(alloc, b"k", b"v")?;
            table.set_tags(place, Listed::new(Vec::from_array(alloc, [tag])?));
            word(alloc, "done")
        }
        _ => word(alloc, "not active"),
    }
}

fn row(alloc: Global, table: &Table, place: &str) -> Result<Vec<u8>, Stop> {
    let place = number(place)?;
    if place >= table.count() {
        return word(alloc, "none");
    }
    let row = table.row(place);
    let state = match row.state {
        State::Active => "a",
        State::Finalizing => "z",
        State::Finalized => "f",
    };
    let (began, ended) = (micros_of(row.started), micros_of(row.finished));
    let text = format!(in alloc; "{state} {began} {ended}, {} tags", row.tags.len())?;
    Ok(text.into_bytes())
}
