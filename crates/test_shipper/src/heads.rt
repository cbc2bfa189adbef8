//! What a head has of the samples that a shipper sent it.

ghost use Rattle.std.specs.Prelude.{◌≡◌, ◌<◌, ◌+◌, [], All, IfOk, Some};
ghost use Rattle.std.specs.Arc.{arc_value};

use crate::logs::{FOUR, ONE, TWO, UP, segment};
use crate::peers::Quick;
use crate::work::{Call, Ending, Stop, Task, Wanted, config_of, done, ends_so};
use Call::{Feed, Flush, NextSegment, Reshard};
use rw_head::{Head, Limits};
use rw_in_memory::{Endpoint, Line, Lines, Receiver, Shipped, ship};
use rw_ledger::Reason;
use rw_recv_head::{Blank, Holding, Seat};
use rw_sender::{Connect, Lost, Reply, Transport};
use rw_types::{Bounded, LabelFault, LabelSet, Names, Word};
use rw_wal_tail::Piece;
use std::alloc::{AllocError, Global};
use std::marker::Brand;
use std::sync::{Arc, Mutex, Wait};
use std::thread::Threads;

/// What is shipped to this many seats of a head, what is expected, and the samples that the head
/// then has, all of one metric.
struct Row<'a> {
    seats: u64,
    task: Task<'a>,
    wanted: Wanted<'a>,
    name: &'a str,
    samples: &'a [(i64, u64)],
}

/// A line that its test holds too, so that its seat comes back though its shard keeps no transport.
#[derive(Drop)]
struct SharedLine<R, L: Endpoint + Holding<Head>> {
    rt: R,
    line: Arc<Mutex<Line<R, L>>>,
}

impl<R: Wait, L: Endpoint + Holding<Head>> Transport for SharedLine<R, L> {
    ghost use Rattle.std.specs.Prelude.{⊤, []};

    ghost is_for = { λ _ _ _. ⊤ };

    ghost tells = { λ _. ⊥ };

    ghost seen = { λ _. [] };

    fn exchange(&mut self, request: &[u8]) -> Result<Reply, Lost> {
        let mut line = self.line.lock(&self.rt);
        line.exchange(request)
    }
}

/// A line for each shard, while there are any.
#[derive(Drop)]
struct SharedLines<R, L: Endpoint + Holding<Head>> {
    rt: R,
    lines: Vec<Arc<Mutex<Line<R, L>>>>,
}

impl<R, L> Connect for SharedLines<R, L>
where
    R: Wait + Copy + Send + 'static,
    L: Endpoint + Holding<Head> + Send + Sync + 'static,
{
    type T = SharedLine<R, L>;

    type P = Quick;

    fn transport(
        &mut self,
        _epoch: u64,
        _shard: u32,
    ) -> Result<(SharedLine<R, L>, Quick), AllocError> {
        let Some(line) = self.lines.pop() else {
            return Err(AllocError);
        };
        Ok((SharedLine { rt: self.rt, line }, Quick))
    }
}

/// Puts this many lines into both lists.
fn put_lines<R: Wait + Copy + Send + 'static, L: Endpoint + Holding<Head> + Send + Sync + 'static>(
    alloc: Global,
    connect: &mut Lines<R, L, Quick>,
    count: usize,
    ours: &mut Vec<Arc<Mutex<Line<R, L>>>>,
    theirs: &mut Vec<Arc<Mutex<Line<R, L>>>>,
) -> Result<(), AllocError> {
    for _ in 0..count {
        let (line, _) = connect.transport(0, 0)?;
        let line = Arc::new(alloc, Mutex::new(line))?;
        theirs.push(line.clone()?)?;
        ours.push(line)?;
    }
    Ok(())
}

fn put_seats<R: Drop, L: Endpoint + Holding<Head>>(
    seats: &mut Vec<Seat<L>>,
    lines: Vec<Arc<Mutex<Line<R, L>>>>,
) {
    for line in lines {
        if let Some(line) = Arc::into_inner(line) {
            let _ = seats.push(line.into_inner().into_seat());
        }
    }
}

/// Returns a receiver over the head, and this many seats of it.
fn opened<L: Endpoint + Holding<Head>>(
    alloc: Global,
    limits: Limits,
    blank: Blank,
    head: Head,
    count: usize,
) -> Result<(Arc<Receiver<L>>, Vec<Seat<L>>), AllocError>
    requires some { 0 < count }
    requires name { blank.name ≡ L.name }
    requires parts { (blank.parts ≡ count + 1) × (L.parts ≡ count + 1) }
    requires table { blank.table ≡ L.table }
    requires opening { head ≡ L.opening }
    requires first { L.first ≡ Some head }
    requires path { limits.path ≡ L.path }
    requires limit { limits.max_body_bytes ≡ L.limit }
    ensures seats { IfOk result (λ r. (arc_value r.0).seats ≡ count) }
    ensures unasked { IfOk result (λ r. All (λ s. s.asked ≡ []) r.1.items) }
{
    let (receiver, seats) = Receiver::open(alloc, limits, blank, head, count)?;
    Ok((Arc::new(alloc, receiver)?, seats))
}

/// Returns the head, if all seats were returned and nobody else shares it.
fn gathered<L: Endpoint + Holding<Head>>(
    receiver: Arc<Receiver<L>>,
    seats: Vec<Seat<L>>,
    count: usize,
) -> Option<Head>
    requires { (arc_value receiver).seats ≡ count }
{
    let receiver = Arc::into_inner(receiver)?;
    if seats.len() != count {
        return None;
    }
    Some(receiver.into_shared().gather(seats))
}

/// Ships to the seats of the head, of which each worker takes one, and gathers them. Returns
/// whether everything was done as expected, and the head.
fn shipped<
    R: Threads + Wait + Copy + Send + 'static,
    L: Endpoint + Holding<Head> + Send + Sync + 'static,
>(
    rt: &R,
    alloc: Global,
    limits: Limits,
    blank: Blank,
    head: Head,
    count: usize,
    row: &Row<'_>,
) -> Option<(bool, Head)>
    requires some { 0 < count }
    requires name { blank.name ≡ L.name }
    requires parts { (blank.parts ≡ count + 1) × (L.parts ≡ count + 1) }
    requires table { blank.table ≡ L.table }
    requires opening { head ≡ L.opening }
    requires first { L.first ≡ Some head }
    requires path { limits.path ≡ L.path }
    requires limit { limits.max_body_bytes ≡ L.limit }
{
    let Ok((receiver, seats)) = opened::<L>(alloc, limits, blank, head, count) else {
        return None;
    };
    let mut connect = Lines::new(*rt, alloc, receiver.clone().ok()?, seats, Quick);
    let (mut ours, mut theirs) = (Vec::new(alloc), Vec::new(alloc));
    put_lines(alloc, &mut connect, count, &mut ours, &mut theirs).ok()?;
    drop(connect);
    let (work, lines) = done(
        rt,
        alloc,
        &row.task,
        SharedLines {
            rt: *rt,
            lines: theirs,
        },
    )?;
    let is_so = work.is(&row.wanted);
    drop(lines);
    let mut seats = Vec::new(alloc);
    put_seats(&mut seats, ours);
    Some((is_so, gathered(receiver, seats, count)?))
}

/// Returns the same for this many seats.
fn shipped_to_seats<R: Threads + Wait + Copy + Send + 'static>(
    rt: &R,
    alloc: Global,
    seats: Bounded<1, 1_000>,
    row: &Row<'_>,
) -> Option<(bool, Head)> {
    let count = seats.get();
    let blank = Blank::new(alloc, count + 1).ok()?;
    let limits = Limits::standard(alloc).ok()?;
    let head = Head::new(alloc, &limits);
    shipped::<R, Brand>(rt, alloc, limits, blank, head, count as usize, row)
}

fn texts(alloc: Global, name: &str) -> Result<Vec<(String, String)>, AllocError> {
    let mut texts = Vec::new(alloc);
    let key = String::from_str(alloc, "__name__")?;
    texts.push((key, String::from_str(alloc, name)?))?;
    Ok(texts)
}

/// Returns the labels of the metric of this name.
fn labels(alloc: Global, name: &str) -> Result<LabelSet, LabelFault> {
    let texts = texts(alloc, name)?;
    let mut labels = LabelSet::empty(alloc);
    labels.assign(Names::Legacy, &texts)?;
    Ok(labels)
}

/// Returns whether these are the samples.
fn are(held: &[(i64, Word)], wanted: &[(i64, u64)]) -> bool {
    for (a, b) in held.iter().zip(wanted) {
        if a.0 != b.0 || a.1 != Word(b.1) {
            return false;
        }
    }
    held.len() == wanted.len()
}

/// Returns whether the head has these samples for the metric of this name, and no others.
fn holds(
    alloc: Global,
    head: &Head,
    name: &str,
    wanted: &[(i64, u64)],
) -> Result<bool, LabelFault> {
    let labels = labels(alloc, name)?;
    let held = head.samples(&labels)?;
    Ok(head.total() == wanted.len() as u64 && are(&held, wanted))
}

/// Returns whether a head has what a row expects.
fn has_all<R: Threads + Wait + Copy + Send + 'static>(
    rt: &R,
    alloc: Global,
    row: &Row<'_>,
) -> Result<bool, LabelFault> {
    let Some(seats) = Bounded::try_new(row.seats) else {
        return Ok(false);
    };
    match shipped_to_seats(rt, alloc, seats, row) {
        Some((true, head)) => holds(alloc, &head, row.name, row.samples),
        _ => Ok(false),
    }
}

static ALL: Row<'static> = Row {
    seats: 2,
    task: Task {
        shards: 2,
        batch: 2_000,
        calls: &[Feed(&[UP], &[(1, 10, ONE), (1, 20, TWO)], None), Flush],
        stop: Stop::Orderly,
        limit: None,
    },
    wanted: Wanted {
        faults: &[None, None],
        ending: Ending::Complete(3),
        named: &[],
        resolved: &[0, 2, 0],
        stopped: 0,
    },
    name: "up",
    samples: &[(10, ONE), (20, TWO)],
};

#[test]
fn the_head_has_all_samples(rt: HostRuntime) {
    assert_eq!(rt; has_all(&rt, rt.alloc(), &ALL), Ok(true));
}

static OF_BOTH_EPOCHS: Row<'static> = Row {
    seats: 5,
    task: Task {
        shards: 2,
        batch: 2_000,
        calls: &[
            Feed(&FOUR, &[(3, 10, ONE)], None),
            Reshard(3),
            NextSegment,
            Feed(&[], &[(4, 20, TWO)], None),
        ],
        stop: Stop::Orderly,
        limit: None,
    },
    wanted: Wanted {
        faults: &[None, None, None, None],
        ending: Ending::Complete(6),
        named: &[],
        resolved: &[1, 0, 0, 1],
        stopped: 0,
    },
    name: "c",
    samples: &[(10, ONE), (20, TWO)],
};

/// The third and the fourth reference are one series.
#[test]
fn the_head_has_the_samples_of_both_epochs(rt: HostRuntime) {
    assert_eq!(rt; has_all(&rt, rt.alloc(), &OF_BOTH_EPOCHS), Ok(true));
}

static THAT_RISE: Row<'static> = Row {
    seats: 5,
    task: Task {
        shards: 2,
        batch: 2_000,
        calls: &[
            Feed(&FOUR, &[(3, 10, ONE)], None),
            Reshard(3),
            NextSegment,
            Feed(&[], &[(4, 10, TWO), (4, 20, TWO)], None),
        ],
        stop: Stop::Orderly,
        limit: None,
    },
    wanted: Wanted {
        faults: &[None, None, None, None],
        ending: Ending::Complete(7),
        named: &[(0, 5, Reason::NotRising)],
        resolved: &[1, 0, 0, 1],
        stopped: 0,
    },
    name: "c",
    samples: &[(10, ONE), (20, TWO)],
};

/// The third and the fourth reference are one series, of which the second epoch has a sample at the
/// timestamp of the first one's.
#[test]
fn the_head_has_the_samples_that_rise(rt: HostRuntime) {
    assert_eq!(rt; has_all(&rt, rt.alloc(), &THAT_RISE), Ok(true));
}

/// Ships two segments, of which the second one has a sample at the time of the first one's, over
/// three shards.
fn shipped_whole<R: Threads + Wait + Copy + Send + 'static>(
    rt: &R,
    alloc: Global,
) -> Result<Option<Shipped>, AllocError> {
    let mut log = Vec::new(alloc);
    log.push(Piece::Bytes(segment(alloc, &FOUR, &[(3, 10, ONE)])?))?;
    log.push(Piece::NextSegment)?;
    log.push(Piece::Bytes(segment(alloc, &[], &[(4, 10, TWO), (4, 20, TWO)])?))?;
    let Some(config) = config_of(alloc, 3, 2_000) else {
        return Ok(None);
    };
    let mut limits = Limits::standard(alloc)?;
    limits.max_body_bytes = Bounded::new(1);
    Ok(Some(ship(rt, alloc, config, log, limits, Quick)?))
}

/// Returns whether it is complete, names the sample that does not rise, and the head has the
/// others.
fn is_whole(alloc: Global, shipped: &Shipped) -> Result<bool, LabelFault> {
    let holds = holds(alloc, &shipped.head, "c", &[(10, ONE), (20, TWO)])?;
    Ok(
        holds
            && ends_so(&shipped.outcome, Ending::Complete(7))
            && shipped.parts.len() == 4
            && shipped.filtered == 0,
    )
}

fn is_shipped_whole<R: Threads + Wait + Copy + Send + 'static>(
    rt: &R,
    alloc: Global,
) -> Result<bool, LabelFault> {
    match shipped_whole(rt, alloc)? {
        Some(shipped) => is_whole(alloc, &shipped),
        None => Ok(false),
    }
}

/// The third and the fourth reference are one series. The limit on bodies does not apply.
#[test]
fn a_log_is_shipped_to_a_head_in_this_process(rt: HostRuntime) {
    assert_eq!(rt; is_shipped_whole(&rt, rt.alloc()), Ok(true));
}
