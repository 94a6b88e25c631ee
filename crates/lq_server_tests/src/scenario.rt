//! A scenario: parties at one server, each in a thread of its own, turn by turn.
ghost use Rattle.std.specs.Prelude.{◌≡◌, ◌≤◌, true};

use crate::acted::Acted;
use crate::acts::Table;
use crate::party::Party;
use crate::random_changes::QUERIES;
use crate::reference::{is_left, results_of};
use lq_server::{Base, Named, Retired, Server, servers_may_be_shared};
use lq_value::Refusal;
use lq_volume::Volume;
use std::alloc::Global;
use std::marker::Brand;
use std::sync::Wait;
use std::test::Fail;
use std::thread::{Threads, for_each_mut};

/// The tables of each thread, one for each turn; the first thread has one for every turn.
///
/// The tables of a turn are played side by side. A thread that waits comes before those that it
/// waits for: if no thread can be made it is played after them.
pub struct Scenario {
    pub name: &'static str,
    pub threads: &'static [&'static [Table]],
}

/// The scenario of one thread that makes these calls once.
macro_rules! alone {
    ($name:literal, $($call:expr),* $(,)?) => {
        Scenario { name: $name, threads: &[&[Table::Once(&[$($call),*])]] }
    };
}

pub(crate) use alone;

/// What the callers of a server did, and what the server left when it ended.
#[derive(Drop)]
pub struct Done {
    pub acted: Acted,
    pub retired: Retired,
}

impl Done {
    /// Whether the accepted changes have the numbers from 1 on, each once; a plain volume gives the
    /// same answers to them and ends as the server's did; and each reader that was kept read
    /// exactly their messages. Refused as `Volume::apply` is, or `NoMemory`.
    pub fn is_right(&mut self, alloc: Global) -> Result<bool, Refusal> {
        let acted = &mut self.acted;
        acted.taken.sort_by_key(|one| one.accepted.change)?;
        if self.retired.changes != acted.taken.len() as u64 {
            return Ok(false);
        }
        for query in QUERIES {
            let results = results_of(alloc, query, &acted.taken)?;
            for log in &acted.logs {
                if log.query == query && !log.is_right(&acted.taken, &results)? {
                    return Ok(false);
                }
            }
        }
        is_left(alloc, &self.retired.volume, &acted.taken)
    }
}

/// A base of a server, whose volume takes this many changes. Refused: `NoMemory`, met twice.
pub fn base(alloc: Global, limit: u64) -> Result<Base, Refusal>
    requires { (1 ≤ limit) × (limit ≤ 1000000000000) }
{
    match Base::new(alloc, Volume::new(alloc, limit)) {
        Err(Refusal::NoMemory) => Base::new(alloc, Volume::new(alloc, limit)),
        made => made,
    }
}

/// Plays a scenario at a new server, and then retires the server.
///
/// What is drawn is drawn from the seed. A call that is answered `NoMemory` is made again, up to
/// `tries` times in all. A thread stops at the first call that isn't answered as expected, and
/// `Acted` has its row. Refused as `Server::seat` is, `NoMemory`, or `OutOfStep` where the scenario
/// has no thread.
pub fn stage<N: Named + Send + Sync, R: Threads + Wait + Sync>(
    rt: &R,
    alloc: Global,
    base: Base,
    tries: usize,
    seed: usize,
    scenario: &Scenario,
) -> Result<Done, Refusal>
    requires { (base.board ≡ N.board) × (base.volume ≡ N.start) }
{
    let server: Server<N> = Server::new(base);
    let seat = server.seat(rt)?;
    let acted = act(rt, alloc, &server, tries, seed, scenario)?;
    let retired = server.retire(rt, seat);
    Ok(Done { acted, retired })
}

/// Plays a scenario by `stage`, at a volume that takes `limit` changes. Fails also with the name of
/// the scenario and the row that isn't answered as expected.
pub fn play<R: Threads + Wait + Sync>(
    rt: &R,
    alloc: Global,
    limit: u64,
    tries: usize,
    seed: usize,
    scenario: &Scenario,
) -> Result<Done, Fail>
    requires { (1 ≤ limit) × (limit ≤ 1000000000000) }
{
    let base = base(alloc, limit)?;
    let done = stage::<Brand, _>(rt, alloc, base, tries, seed, scenario)?;
    match done.acted.stop {
        Some(row) => Err(Fail::from((scenario.name, row))),
        None => Ok(done),
    }
}

/// Plays the turns of a scenario: as many parties as there are threads, each with a seat.
fn act<N: Named + Send + Sync, R: Threads + Wait + Sync>(
    rt: &R,
    alloc: Global,
    server: &Server<N>,
    tries: usize,
    seed: usize,
    scenario: &Scenario,
) -> Result<Acted, Refusal>
    requires { N.board.free ≡ true }
{
    let mut parties = Vec::with_capacity(alloc, 4).or_else(|_| Vec::with_capacity(alloc, 4))?;
    for (place, tables) in scenario.threads.iter().enumerate() {
        let state = (seed as u64).wrapping_mul(4) ^ place as u64;
        parties.push(Party::new(rt, alloc, server, tables, tries, state)?)?;
    }
    let turns = scenario.threads.first().map_or(0, |tables| tables.len());
    for _ in 0..turns {
        servers_may_be_shared::<N>();
        for_each_mut(
            rt,
            &mut parties,
            4,
            &|_, party: &mut Party<N>| { party.play(rt, server) },
        );
    }
    match parties.pop() {
        Some(party) => party.end(&mut parties),
        None => Err(Refusal::OutOfStep),
    }
}
