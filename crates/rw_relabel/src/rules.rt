//! A list of rules.

ghost use Rattle.std.specs.Prelude.{◌≡◌, IfOk};
ghost use Rattle.rw_relabel.specs.Rules.{keeps};

use crate::rule::Rule;
use rw_types::LabelSet;
use std::alloc::AllocError;
use std::marker::Model;

/// A list of rules, which decides which series are kept; an empty list keeps all. Contracts see the
/// list of their configurations.
#[derive(Debug, Drop)]
pub struct Rules {
    rules: Vec<Rule>,
}

impl Model for Rules {
    ghost use Rattle.std.specs.Prelude.{List};
    ghost use Rattle.rw_relabel.specs.Rules.{RuleConfig};

    ghost Value = { List RuleConfig };

    ghost view = { λ r. r.rules.items };
}

impl Rules {
    /// Returns a list of these rules. This takes no memory.
    pub fn new(rules: Vec<Rule>) -> Rules
        ensures { result ≡ rules.items }
    {
        Rules { rules }
    }

    /// Returns whether a series with these labels is kept: every `Keep` rule matches it, and no
    /// `Drop` rule does.
    #[tactic(auto, unfolding(crate::specs::Rules::keeps))]
    pub fn keeps(&self, labels: &LabelSet) -> Result<bool, AllocError>
        ensures { IfOk result (λ b. b ≡ keeps self.now labels.now) }
    {
        let alloc = *self.rules.allocator();
        for rule in &self.rules {
            if !rule.lets_pass(alloc, labels.as_slice())? {
                return Ok(false);
            }
        }
        Ok(true)
    }
}
