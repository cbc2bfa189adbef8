//! The configuration of a sender.

ghost use Rattle.std.specs.Prelude.{◌≡◌, ◌≤◌, true, Some, None, codes, IfOk, if◌then◌else◌};
ghost use Rattle.rw_types.specs.Requests.{is_host_name};
ghost use Rattle.rw_shard_core.specs.Configs.{is_ordered, standard, choice_of};

use rw_relabel::{Choice, Rules};
use rw_types::{Bounded, HostName, Names, RequestPath};
use std::alloc::{AllocError, Global};
use std::marker::Model;

/// The host and the path that each request names.
#[derive(Debug, Drop)]
pub struct Target {
    /// The value of the field `Host` of each request.
    pub host: HostName,
    /// The path of each request.
    pub path: RequestPath,
}

impl Target {
    /// Returns `localhost:9090` and `/api/v1/write`: the receiver of a Prometheus on this machine.
    pub fn standard(alloc: Global) -> Result<Target, AllocError>
        ensures { IfOk result (λ t. t
            ≡ record { host = codes "localhost:9090"; path = codes "/api/v1/write" }) }
    {
        Ok(Target {
            host: HostName::local_prometheus(alloc)?,
            path: RequestPath::api_v1_write(alloc)?,
        })
    }
}

/// The fields of a configuration, each number in its range.
#[derive(Debug, Drop)]
pub struct ConfigFields {
    /// The host and the path that requests name.
    pub target: Target,
    /// How many shards there are at the start.
    pub shards: Bounded<1, 1_000>,
    /// The fewest shards that resharding picks.
    pub min_shards: Bounded<1, 1_000>,
    /// The most shards that resharding picks.
    pub max_shards: Bounded<1, 1_000>,
    /// The most items that the queue of one shard holds, marks included.
    pub capacity: Bounded<1, 1_000_000>,
    /// The most samples of a batch.
    pub batch: Bounded<1, 10_000>,
    /// The pause before the first retry of a batch, in milliseconds.
    pub min_backoff_ms: Bounded<1, 3_600_000>,
    /// The longest pause before a retry of a batch, in milliseconds.
    pub max_backoff_ms: Bounded<1, 3_600_000>,
    /// How long an attempt may take, in milliseconds: to connect, to write the request and to read
    /// the reply, together.
    pub timeout_ms: Bounded<1, 3_600_000>,
    /// Which label names are accepted from the log.
    pub names: Names,
    /// Whether bodies are sent as Snappy blocks.
    pub snappy: bool,
    /// The rules by which series are kept or dropped.
    pub rules: Rules,
}

/// A configuration: `min_shards <= shards <= max_shards` and `min_backoff_ms <= max_backoff_ms`.
/// Contracts see the fields.
#[derive(Debug, Drop)]
pub struct Config {
    fields: ConfigFields,
}

impl Model for Config {
    ghost use Rattle.std.specs.Prelude.{◌≡◌, true};
    ghost use Rattle.rw_shard_core.specs.declared.config.ConfigFields.{ConfigFields};
    ghost use Rattle.rw_shard_core.specs.Configs.{is_ordered};

    ghost Value = { ConfigFields };

    ghost view = { λ c. c.fields };

    ghost invariant = { λ c. is_ordered c.fields ≡ true };
}

impl ConfigFields {
    /// Returns the defaults: one shard at first and at most 50, queues of 10,000 items, batches of
    /// 2,000 samples, legacy names, bodies as they are, and no rules.
    pub fn standard(alloc: Global) -> Result<ConfigFields, AllocError>
        ensures { IfOk result (λ c. c ≡ standard) }
    {
        Ok(ConfigFields {
            target: Target::standard(alloc)?,
            shards: Bounded::new(1),
            min_shards: Bounded::new(1),
            max_shards: Bounded::new(50),
            capacity: Bounded::new(10_000),
            batch: Bounded::new(2_000),
            min_backoff_ms: Bounded::new(30),
            max_backoff_ms: Bounded::new(5_000),
            timeout_ms: Bounded::new(30_000),
            names: Names::Legacy,
            snappy: false,
            rules: Rules::new(Vec::new(alloc)),
        })
    }

    /// Returns which series are sent, by their names and by the rules.
    pub fn into_choice(self) -> Choice
        ensures { result ≡ choice_of self }
    {
        Choice {
            names: self.names,
            rules: self.rules,
        }
    }

    /// Returns whether `min_shards <= shards <= max_shards` and `min_backoff_ms <= max_backoff_ms`.
    pub fn is_ordered(&self) -> bool
        ensures { result ≡ is_ordered self.now }
    {
        self.min_shards.get() <= self.shards.get()
            && self.shards.get() <= self.max_shards.get()
            && self.min_backoff_ms.get() <= self.max_backoff_ms.get()
    }
}

impl Config {
    /// Returns the configuration with these fields, or `None` if `is_ordered` does not hold. This
    /// takes no memory.
    pub fn new(fields: ConfigFields) -> Option<Config>
        ensures { result ≡ (if is_ordered fields then Some fields else None) }
    {
        if fields.is_ordered() {
            Some(Config { fields })
        } else {
            None
        }
    }

    /// Returns the configuration with the default fields.
    pub fn standard(alloc: Global) -> Result<Config, AllocError>
        ensures { IfOk result (λ c. c ≡ standard) }
    {
        Ok(Config {
            fields: ConfigFields::standard(alloc)?,
        })
    }

    /// Law: requests name a valid host, the numbers are in the ranges of their types, and the
    /// bounds are in order. The call does nothing.
    pub fn conforms(&self)
        ensures host { is_host_name self.now.target.host ≡ true }
        ensures shards { (1 ≤ self.now.shards) × (self.now.shards ≤ 1000) }
        ensures capacity { 1 ≤ self.now.capacity }
        ensures batch { 1 ≤ self.now.batch }
        ensures min_shards { self.now.min_shards ≤ self.now.shards }
        ensures max_shards { self.now.shards ≤ self.now.max_shards }
        ensures backoff { self.now.min_backoff_ms ≤ self.now.max_backoff_ms }
    {
        let fields = &self.fields;
        fields.target.host.conforms();
        let _ = (
            fields.shards.get(),
            fields.capacity.get(),
            fields.batch.get(),
        );
    }

    /// Returns the fields of the configuration.
    pub fn fields(&self) -> &ConfigFields
        ensures fields { result.now ≡ self.now }
        ensures min_shards { self.now.min_shards ≤ self.now.shards }
        ensures max_shards { self.now.shards ≤ self.now.max_shards }
        ensures backoff { self.now.min_backoff_ms ≤ self.now.max_backoff_ms }
    {
        &self.fields
    }

    /// Returns the fields of the configuration, by value.
    pub fn into_fields(self) -> ConfigFields
        ensures { result ≡ self }
    {
        let Config { fields } = self;
        fields
    }
}
