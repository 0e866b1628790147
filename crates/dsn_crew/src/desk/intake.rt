//! The collector's side of the request lane: it takes the requests that wait, several at once, and
//! gives them one after another.
ghost use Rattle.std.specs.Prelude.{◌≡◌, ◌≢◌, ◌+◌, ◌^◌, ◌<◌, ◌≤◌, ℕ, List, [], ◌∷◌, ◌++◌, ◌==◌, take, length, All, IfErr, IfOk, IfSome, OnOk, OnErr};
ghost use Rattle.std.specs.Option.{option_to_list};
ghost use Rattle.std.specs.VecDeque.{deque_capacity};
ghost use Rattle.dsn_book.specs.Keeper.{MayCrash};
ghost use Rattle.dsn_crew.specs.lane.Lane.{IsNumbered};
ghost use Rattle.dsn_outcome.specs.Agents.{from_agent};
ghost use Rattle.dsn_outcome.specs.History.{Exchange};
ghost use Rattle.dsn_outcome.specs.Request.{Request};
ghost use Rattle.dsn_crew.specs.desk.Intake.{goodbyes, most_taken, most_together, taken_request};

use crate::desk::awaited::Awaited;
use crate::lane::{LaneEnd, LaneGone, LaneOut};
use dsn_book::{Keeper, NotKept};
use dsn_outcome::Request;
use std::collections::VecDeque;
use std::marker::Model;
use std::sync::Wait;
use std::thread;
use std::time::{Clock, Duration, Instant};

/// How many requests are taken together at most: one of each agent of the largest crew, since an
/// agent asks again once it was answered.
pub(crate) const MOST_TOGETHER: usize = 16;

/// How long it sleeps before it looks again for an awaited request, in microseconds.
const BETWEEN_LOOKS: u64 = 100;

/// How often it looks at most: as often as it may sleep within the longest wait.
const MOST_LOOKS: u32 = 100;

/// The requests that the collector takes: those that it has given to be carried out, and those
/// behind, which it has taken together and not given so far.
#[derive(Drop)]
pub(crate) struct Intake {
    lane: LaneOut<Request>,
    /// The requests behind, in order.
    behind: VecDeque<Request>,
    /// How many requests it has given.
    count: u32,
    /// The agents that it waits for. They change how many requests it takes at once, which no
    /// contract says, so contracts don't see them.
    awaited: Awaited,
}

impl Model for Intake {
    ghost use Rattle.std.specs.Prelude.{◌≡◌, ◌≤◌, drop, length};
    ghost use Rattle.std.specs.VecDeque.{deque_capacity};
    ghost use Rattle.dsn_crew.specs.inner.Desk.{Intake, intake_of};
    ghost use Rattle.dsn_crew.specs.desk.Intake.{most_together};

    ghost Value = { Intake };

    ghost view = { λ i. intake_of i.count i.lane };

    ghost invariant = { λ i. (i.behind.items ≡ drop i.count i.lane.taken)
        × (i.count ≤ length i.lane.taken) × (most_together ≤ deque_capacity i.behind) };
}

impl Intake {
    /// The side of a lane of which nothing was taken, with room for the requests behind.
    pub(crate) fn new(lane: LaneOut<Request>, behind: VecDeque<Request>) -> Intake
        requires untaken { lane.taken ≡ [] }
        requires room { (behind.items ≡ []) × (most_together ≤ deque_capacity behind) }
        ensures { result ≡ record { requests = lane; behind = [] } }
    {
        Intake {
            lane,
            behind,
            count: 0,
            awaited: Awaited::nobody(),
        }
    }

    /// How many requests it has given.
    pub(crate) fn count(&self) -> u32
        ensures { result ≡ length self.now.requests.taken }
    {
        self.count
    }

    /// Whether no request is behind those that it has given.
    pub(crate) fn is_empty(&self) -> bool
        ensures { result ≡ (length self.now.behind == 0) }
    {
        self.behind.is_empty()
    }

    /// Takes the next request, and waits for it, and then those that wait in the lane, up to 16 in
    /// all. It may wait shortly for the agents of the group before. Returns what the lane reported
    /// if no agent is left to ask. `heard` counts the goodbyes that were heard, and the agents that
    /// never start. It takes none after the goodbye by which these are as many as the agents.
    pub(crate) fn fill<R: Wait + Clock>(
        &mut self,
        rt: &R,
        heard: u64,
        agents: u64,
    ) -> Result<(), LaneGone>
        requires none { self.old.behind ≡ [] }
        requires few { heard < 2 ^ 63 }
        requires left { heard ≢ agents }
        ensures handed_on { self.new.requests ≡ self.old.requests }
        ensures some { OnOk result (1 ≤ length self.new.behind) }
        ensures none { OnErr result (self.new.behind ≡ []) }
        ensures together { length self.new.behind ≤ most_together }
        ensures agents { All (λ (request : Request). request.agent < self.old.requests.past)
            self.new.behind }
        ensures numbered { (a : ℕ) → IsNumbered (λ (request : Request). request.number)
            (from_agent (λ (request : Request). request.agent) a
            (self.new.requests.taken ++ self.new.behind)) }
        ensures in_time { (n : ℕ) → n < length self.new.behind
            → heard + goodbyes (take n self.new.behind) ≢ agents }
    {
        // While a group is synced the next requests gather, so a group grows with the load. The
        // agents that were just answered ask a little later. Without a wait for them two groups
        // would alternate, each of half the agents. None is taken behind the last goodbye, so that
        // no request is left over.
        take_together(
            rt,
            &mut self.lane,
            &mut self.behind,
            &mut self.awaited,
            heard,
            agents,
        )
    }

    /// Has the requests behind kept by the keeper, whose rules stay the same. Returns why they were
    /// not kept, if so.
    pub(crate) fn keep_by<B: Keeper>(
        &mut self,
        clock: &impl Clock,
        keeper: &mut B,
    ) -> Result<(), NotKept>
        requires has { (t : List Exchange) × B.has keeper.old t [] }
        ensures same { self.new ≡ self.old }
        ensures has { OnOk result ((t : List Exchange) → B.has keeper.old t []
            → B.has keeper.new t self.old.behind) }
        ensures refused { IfErr result (λ why. B.refuses keeper.old self.old.behind why keeper.new) }
        ensures any_moment { (t : List Exchange) → B.has keeper.old t []
            → MayCrash B.Keeper keeper.old keeper.new (B.rules keeper.old) t self.old.behind }
        ensures rules { B.rules keeper.new ≡ B.rules keeper.old }
        ensures sealed { B.sealed keeper.new ≡ B.sealed keeper.old }
    {
        // A group that isn't kept is answered in no part, though its first requests may have had
        // room. After a failed write it isn't known which of them a crash would leave.
        let began = Instant::now(clock);
        let kept = keeper.keep(self.behind.make_contiguous());
        self.awaited.await_group(clock, began);
        kept
    }

    /// Gives the next request.
    ///
    /// Requires that a request is behind, and that fewer than 4,294,967,295 were given.
    pub(crate) fn next(&mut self) -> Request
        requires some { 1 ≤ length self.old.behind }
        requires few { length self.old.requests.taken < most_taken }
        ensures next { self.old.behind ≡ result ∷ self.new.behind }
        ensures handed_on { self.new.requests ≡ taken_request self.old.requests result }
    {
        let Some(request) = self.behind.pop_front() else {
            unreachable!()
        };
        self.count += 1;
        request
    }

    /// The half of the lane. Requires that no request is behind.
    pub(crate) fn into_lane(self) -> LaneOut<Request>
        requires { self.behind ≡ [] }
        ensures { result ≡ self.requests }
    {
        self.lane
    }
}

/// Takes the request at the front of a lane, and waits for it, and then those that wait after it.
fn take_together<R: Wait + Clock>(
    rt: &R,
    lane: &mut LaneOut<Request>,
    waiting: &mut VecDeque<Request>,
    awaited: &mut Awaited,
    heard: u64,
    agents: u64,
) -> Result<(), LaneGone>
    requires none { waiting.old.items ≡ [] }
    requires room { most_together ≤ deque_capacity waiting.old }
    requires few { heard < 2 ^ 63 }
    requires left { heard ≢ agents }
    ensures same { (lane.new.lane ≡ lane.old.lane) × (lane.new.first ≡ lane.old.first)
        × (lane.new.past ≡ lane.old.past) }
    ensures taken { lane.new.taken ≡ lane.old.taken ++ waiting.new.items }
    ensures some { OnOk result (1 ≤ length waiting.new.items) }
    ensures none { OnErr result (waiting.new.items ≡ []) }
    ensures together { length waiting.new.items ≤ most_together }
    ensures room { most_together ≤ deque_capacity waiting.new }
    ensures agents { All (λ (request : Request). request.agent < lane.old.past) waiting.new.items }
    ensures numbered { (a : ℕ) → IsNumbered (λ (request : Request). request.number)
        (from_agent (λ (request : Request). request.agent) a lane.new.taken) }
    ensures in_time { (n : ℕ) → n < length waiting.new.items
        → heard + goodbyes (take n waiting.new.items) ≢ agents }
{
    let first = match lane.take(rt) {
        Ok(request) => request,
        Err(end) => return Err(end.gone),
    };
    let mut counted = heard + u64::from(first.body.is_bye());
    awaited.note_asked(&first);
    waiting.push_back_reserved(first);
    for _ in 1..MOST_TOGETHER {
        if counted == agents {
            return Ok(());
        }
        let Ok(Some(request)) = take_due(rt, lane, awaited) else {
            return Ok(());
        };
        counted += u64::from(request.body.is_bye());
        awaited.note_asked(&request);
        waiting.push_back_reserved(request);
    }
    Ok(())
}

/// Takes the request at the front of a lane if one waits, or if one comes while an agent is due.
fn take_due<R: Wait + Clock>(
    rt: &R,
    lane: &mut LaneOut<Request>,
    awaited: &Awaited,
) -> Result<Option<Request>, LaneEnd>
    ensures taken { IfOk result
        (λ item. lane.new.taken ≡ lane.old.taken ++ option_to_list item) }
    ensures agent { IfOk result (λ item. IfSome item
        (λ item. (lane.old.first ≤ item.agent) × (item.agent < lane.old.past))) }
    ensures end { OnErr result (lane.new.taken ≡ lane.old.taken) }
    ensures numbered { (a : ℕ) → IsNumbered (λ (request : Request). request.number)
        (from_agent (λ (request : Request). request.agent) a lane.new.taken) }
    ensures same { (lane.new.lane ≡ lane.old.lane) × (lane.new.first ≡ lane.old.first)
        × (lane.new.past ≡ lane.old.past) }
{
    for _ in 0..MOST_LOOKS {
        match lane.take_waiting(rt) {
            Ok(None) if awaited.is_due(rt) => {
                thread::sleep(rt, Duration::from_micros(BETWEEN_LOOKS));
            }
            taken => return taken,
        }
    }
    lane.take_waiting(rt)
}
