ghost use Rattle.std.specs.Prelude.{◌≡◌, ◌≢◌, IfOk, IfErr, IsOk, Ok, Err};
ghost use Rattle.std.specs.Option.{option_copied, option_map};
ghost use Rattle.std.specs.List.{list_any};
ghost use Rattle.mq_plan.specs.Names.{is_taken, new_name, rule_for};
ghost use Rattle.mq_plan.specs.Rules.{out_of_memory, rules_of};

use crate::check::first_fault;
use crate::fault::{PlanFault, PlanKind};
use crate::read::rules_in;
use crate::rule::PlanRule;
use mq_topic::TopicName;
use std::alloc::{AllocError, Global};
use std::marker::Model;

/// A plan of a change of topic names: rules, of which the first that is about a topic decides.
pub struct Plan {
    rules: Vec<PlanRule>,
}

// Opaque to callers' proofs: one step, and not one for each field (docs/explanation/gate.md).
impl Drop for Plan {
    fn drop(self) {
        let Plan { rules: _ } = self;
    }
}

impl Model for Plan {
    ghost use Rattle.std.specs.Prelude.{List};
    ghost use Rattle.mq_plan.specs.declared.rule.PlanRule.{PlanRule};

    ghost Value = { List PlanRule };

    ghost view = { λ plan. plan.rules.items };
}

impl Plan {
    /// The plan with these rules.
    pub fn new(rules: Vec<PlanRule>) -> Plan
        ensures { result ≡ rules.items }
    {
        Plan { rules }
    }

    /// The rules, in the order in which they decide.
    pub fn rules(&self) -> &[PlanRule]
        ensures { result.now ≡ self.entry.now }
    {
        &self.rules
    }

    /// The plan with this text, or its first faulty line. A line is empty, a comment (`#`), `FROM
    /// -> TO`, `keep FROM` or `none FROM`; a level of a side that is `+` may have a name, as
    /// `+hall`. How the text is cut, what stands for what, and which faults there are, is our own.
    /// The text is tested before memory is taken.
    pub fn read(alloc: Global, text: &str) -> Result<Plan, PlanFault>
        ensures rules { IfOk result (λ plan. rules_of text.now ≡ Ok plan) }
        ensures fault { IfErr result
            (λ fault. fault.kind ≢ PlanKind.Memory → rules_of text.now ≡ Err fault) }
        ensures memory { IfErr result (λ fault. fault.kind ≡ PlanKind.Memory
            → (fault ≡ out_of_memory) × IsOk (rules_of text.now)) }
    {
        if let Some(fault) = first_fault(text) {
            return Err(fault);
        }
        match rules_in(alloc, text) {
            Ok(rules) => Ok(Plan { rules }),
            Err(_) => Err(PlanFault {
                line: 0,
                kind: PlanKind::Memory,
            }),
        }
    }

    // The first rule that is about the topic.
    fn rule_for(&self, name: &TopicName) -> Option<&PlanRule>
        ensures { option_copied result ≡ rule_for self.entry.now name.now }
    {
        self.rules.iter().find(|rule| rule.takes(name))
    }

    // Whether some rule gives topics names of which this may be one.
    fn is_taken(&self, name: &TopicName) -> bool
        ensures { result ≡ list_any (is_taken name.now) self.now }
    {
        self.rules.iter().any(|rule| rule.is_taken(name))
    }

    /// The line of the rule that decides about the topic: the first whose left side matches it.
    pub fn rule_line(&self, name: &TopicName) -> Option<u64>
        ensures { result ≡ option_map (λ rule. rule.line) (rule_for self.now name.now) }
    {
        let rule = self.rule_for(name)?;
        Some(rule.line)
    }

    /// The new name of the topic, by the first rule whose left side matches it. None where that
    /// rule says so, or renames it to a text that is not a topic name. Where no rule is about it,
    /// it keeps its name; but none where the right side of some rule matches it, since the plan
    /// takes such names for its own.
    pub fn new_name(&self, alloc: Global, name: &TopicName) -> Result<Option<TopicName>, AllocError>
        ensures { IfOk result (λ found. found ≡ new_name self.now name.now) }
    {
        if let Some(rule) = self.rule_for(name) {
            return rule.new_name(alloc, name);
        }
        if self.is_taken(name) {
            return Ok(None);
        }
        Ok(Some(name.clone()?))
    }
}
