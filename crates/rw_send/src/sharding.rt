//! How many shards a sender works with.

ghost use Rattle.std.specs.Prelude.{◌≡◌, ◌≤◌, ◌-◌, ◌⊎◌, true, false, None, IfOk, IsSome, OnOk, OnErr, length};
ghost use Rattle.rw_reshard.specs.Wanted.{wanted};
ghost use Rattle.rw_sender.specs.Shipping.{HasCompared, PlacesAll};
ghost use Rattle.rw_fleet.specs.Loads.{IsLoad};
ghost use Rattle.rw_fleet.specs.declared.load.Load.{Load};
ghost use Rattle.rw_send.specs.Steps.{HasPutAll, IsNextEpoch, IsSet, wanted_since};
ghost use Rattle.rw_send.specs.inner.EpochSizes.{KeepsEpochSizes};

use crate::feed_error::FeedError;
use rw_reshard::want;
use rw_sender::{Connect, Load, Shipper};
use rw_shard_core::Config;
use std::sync::Wait;
use std::thread::{self, Threads};
use std::time::{Clock, Duration};

/// How many shards there are, and the fewest and the most that there may be.
#[derive(Clone, Copy, Debug)]
pub struct Sharding {
    pub shards: u32,
    pub fewest: u32,
    pub most: u32,
    /// How many samples had been placed when the clock last asked for an adjustment.
    pub placed: u64,
    /// How many had been resolved then.
    pub resolved: u64,
    ghost some: { 1 ≤ shards },
    ghost few: { shards ≤ 1000 },
    ghost range: { (1 ≤ fewest) × (fewest ≤ most) × (most ≤ 1000) },
}

impl Sharding {
    ghost use Rattle.std.specs.Prelude.{◌≡◌};

    /// Returns the number and its bounds as a sender is configured.
    pub fn of(config: &Config) -> Sharding
        ensures shards { result.shards ≡ config.now.shards }
        ensures fewest { result.fewest ≡ config.now.min_shards }
        ensures most { result.most ≡ config.now.max_shards }
        ensures capacity { 1 ≤ config.now.capacity }
        ensures batch { 1 ≤ config.now.batch }
    {
        config.conforms();
        let fields = config.fields();
        Sharding {
            shards: fields.shards.get() as u32,
            fewest: fields.min_shards.get() as u32,
            most: fields.max_shards.get() as u32,
            placed: 0,
            resolved: 0,
        }
    }

    /// Returns as many shards as are wanted under this load.
    fn under(self, load: Load) -> Sharding
        ensures shards { result.shards
            ≡ wanted self.shards load.placed load.resolved load.backlog self.fewest self.most }
        ensures fewest { result.fewest ≡ self.fewest }
        ensures most { result.most ≡ self.most }
        ensures placed { result.placed ≡ self.placed }
        ensures resolved { result.resolved ≡ self.resolved }
    {
        let shards = want(
            self.shards,
            load.placed,
            load.resolved,
            load.backlog,
            self.fewest,
            self.most,
        );
        Sharding {
            shards,
            fewest: self.fewest,
            most: self.most,
            placed: self.placed,
            resolved: self.resolved,
        }
    }

    /// Returns as many shards, within their bounds.
    #[tactic(auto, using(crate::proofs::EpochSizeLemmas::wanted_bounds))]
    pub(crate) fn within_bounds(self) -> Sharding
        ensures shards { result.shards ≡ wanted self.shards 0 0 0 self.fewest self.most }
        ensures bounds { (self.fewest ≤ result.shards) × (result.shards ≤ self.most) }
        ensures fewest { result.fewest ≡ self.fewest }
        ensures most { result.most ≡ self.most }
        ensures placed { result.placed ≡ self.placed }
        ensures resolved { result.resolved ≡ self.resolved }
    {
        Sharding {
            shards: want(self.shards, 0, 0, 0, self.fewest, self.most),
            fewest: self.fewest,
            most: self.most,
            placed: self.placed,
            resolved: self.resolved,
        }
    }

    /// Returns as many shards as are wanted under what was placed and resolved since the clock last
    /// asked for an adjustment, and what waits under this load.
    fn lately(self, load: Load) -> Sharding
        ensures shards { result.shards
            ≡ wanted self.shards (load.placed - self.placed)
            (load.resolved - self.resolved) load.backlog self.fewest self.most }
        ensures fewest { result.fewest ≡ self.fewest }
        ensures most { result.most ≡ self.most }
        ensures placed { result.placed ≡ load.placed }
        ensures resolved { result.resolved ≡ load.resolved }
    {
        let shards = want(
            self.shards,
            load.placed.saturating_sub(self.placed),
            load.resolved.saturating_sub(self.resolved),
            load.backlog,
            self.fewest,
            self.most,
        );
        Sharding {
            shards,
            fewest: self.fewest,
            most: self.most,
            placed: load.placed,
            resolved: load.resolved,
        }
    }
}

/// How often, and for how many milliseconds, the workers are waited for before the number of shards
/// is asked for: 50 ms at most.
const MOMENTS: u32 = 10;

const MOMENT_MS: u64 = 5;

/// Waits a moment for the workers to resolve what was put, so that the load shows whether they keep
/// up.
fn let_catch_up<R: Clock, C: Connect + Drop>(rt: &R, shipper: &Shipper<C>) {
    for _ in 0..MOMENTS {
        if shipper.load().backlog == 0 {
            return;
        }
        thread::sleep(rt, Duration::from_millis(MOMENT_MS));
    }
}

/// Changes the number of shards to what is wanted under the load, if that is another one.
pub fn resharded<R: Threads + Wait + Clock + Copy + Send + 'static, C: Connect + Drop>(
    rt: &R,
    shipper: &mut Shipper<C>,
    sharding: Sharding,
) -> Result<Sharding, FeedError>
    requires { length shipper.old.fleet.current ≡ sharding.shards }
    ensures put { shipper.old.fault ≡ None → HasPutAll shipper.old }
    ensures set { OnOk result
        (IsSet sharding.fewest sharding.most shipper.old shipper.new) }
    ensures shards { IfOk result (λ s. s.shards ≡ length shipper.new.fleet.current) }
    ensures range { IfOk result (λ s. (s.fewest ≡ sharding.fewest) × (s.most ≡ sharding.most)) }
    ensures start { IfOk result
        (λ s. (s.placed ≡ sharding.placed) × (s.resolved ≡ sharding.resolved)) }
    ensures log { shipper.new.log ≡ shipper.old.log }
    ensures limit { shipper.new.limit ≡ shipper.old.limit }
    ensures compared { (shipper.new.fleet ≡ shipper.old.fleet)
        ⊎ HasCompared shipper.old.fleet shipper.new.fleet }
    ensures config { shipper.new.fleet.config ≡ shipper.old.fleet.config }
    ensures sound { shipper.old.fault ≡ None → OnOk result (shipper.new.fault ≡ None) }
    ensures err { OnErr result (result ≡ Err FeedError.Failed) }
    ensures failed { OnErr result (IsSome shipper.new.fault) }
{
    if sharding.fewest < sharding.most {
        let_catch_up(rt, shipper);
    }
    let next = sharding.under(shipper.load());
    if next.shards == sharding.shards {
        return Ok(sharding);
    }
    if shipper.reshard(rt, next.shards).is_err() {
        return Err(FeedError::Failed);
    }
    Ok(next)
}

/// Changes the number of shards to what is wanted under what was placed and resolved since the
/// clock asked last, if it asks and that is another one.
pub fn retuned<R: Threads + Wait + Clock + Copy + Send + 'static, C: Connect + Drop>(
    rt: &R,
    shipper: &mut Shipper<C>,
    sharding: Sharding,
    is_due: bool,
) -> Result<Sharding, FeedError>
    requires { length shipper.old.fleet.current ≡ sharding.shards }
    // The next adjustment counts from the load that decided.
    ensures asked { is_due ≡ true → IfOk result (λ s. (load : Load)
        × IsLoad shipper.old.fleet load × (s.shards
        ≡ wanted_since sharding.fewest sharding.most sharding.shards sharding.placed
        sharding.resolved load) × (s.placed ≡ load.placed) × (s.resolved ≡ load.resolved)) }
    ensures stays { is_due ≡ false → shipper.new ≡ shipper.old }
    ensures kept { is_due ≡ false → result ≡ Ok sharding }
    ensures next { OnOk result
        ((shipper.new ≡ shipper.old) ⊎ IsNextEpoch shipper.old.fleet shipper.new.fleet) }
    ensures sizes { OnOk result (KeepsEpochSizes sharding.fewest sharding.most
        shipper.old.fleet shipper.new.fleet) }
    ensures shards { IfOk result (λ s. length shipper.new.fleet.current ≡ s.shards) }
    ensures range { IfOk result (λ s. (s.fewest ≡ sharding.fewest) × (s.most ≡ sharding.most)) }
    ensures log { shipper.new.log ≡ shipper.old.log }
    ensures limit { shipper.new.limit ≡ shipper.old.limit }
    ensures config { shipper.new.fleet.config ≡ shipper.old.fleet.config }
    ensures compared { (shipper.new.fleet ≡ shipper.old.fleet)
        ⊎ HasCompared shipper.old.fleet shipper.new.fleet }
    ensures sound { shipper.old.fault ≡ None → OnOk result (shipper.new.fault ≡ None) }
    ensures err { OnErr result (result ≡ Err FeedError.Failed) }
    ensures failed { OnErr result (IsSome shipper.new.fault) }
    ensures placed { OnErr result (PlacesAll shipper.old.log shipper.old.fleet) }
{
    if !is_due {
        return Ok(sharding);
    }
    if sharding.fewest < sharding.most {
        let_catch_up(rt, shipper);
    }
    let next = sharding.lately(shipper.load());
    if next.shards == sharding.shards {
        return Ok(next);
    }
    if shipper.reshard(rt, next.shards).is_err() {
        return Err(FeedError::Failed);
    }
    Ok(next)
}
