// What is counted while the scripts run.
use crate::rule::{Rule, Side, WITH_VARIABLE, WITHOUT};
use std::alloc::{AllocError, Global};
use std::collections::BTreeMap;
use std::fmt;

// Bounds and marks: those that the scripts put, and those that stood at their ends.
#[derive(Drop)]
pub struct Tally {
    pub lines: u32,
    pub scripts: u32,
    pub questions: u32,
    pub yes: u32,
    pub stopped: u32,
    pub mismatches: u32,
    pub missing: u32,
    pub instalments: u32,
    pub steps: u32,
    pub differences: u32,
    pub visited: u32,
    pub bounds_put: u32,
    pub bounds: u32,
    pub marks_put: u32,
    pub marks: u32,
    hits: BTreeMap<Rule, u32>,
}

// Adds to a count.
pub fn add(count: &mut u32, n: u32) {
    *count = count.wrapping_add(n);
}

impl Tally {
    // Nothing counted.
    pub fn new(alloc: Global) -> Tally {
        Tally {
            lines: 0,
            scripts: 0,
            questions: 0,
            yes: 0,
            stopped: 0,
            mismatches: 0,
            missing: 0,
            instalments: 0,
            steps: 0,
            differences: 0,
            visited: 0,
            bounds_put: 0,
            bounds: 0,
            marks_put: 0,
            marks: 0,
            hits: BTreeMap::new(alloc),
        }
    }

    // Counts a rule.
    pub fn hit(&mut self, rule: Rule) -> Result<(), AllocError> {
        add(self.hits.entry(rule)?.or_insert(0), 1);
        Ok(())
    }

    // How often a rule was hit.
    fn hits(&self, rule: Rule) -> u32 {
        self.hits.get(&rule).copied().unwrap_or(0)
    }

    // How many of the rules with a variable added no bound.
    fn repeated(&self) -> u32 {
        let visits = WITH_VARIABLE
            .iter()
            .fold(0u32, |n, rule| n.wrapping_add(self.hits(*rule)));
        visits.wrapping_sub(self.bounds.wrapping_sub(self.bounds_put))
    }

    // A line of a rule, with both counts where it has two.
    fn write_rule<W: fmt::Write>(&self, f: &mut fmt::Formatter<W>, rule: Rule) -> fmt::Result {
        let hits = self.hits(rule);
        write!(f, "{rule}: {hits}")?;
        if let Rule::Of(sided, _) = rule {
            let right = self.hits(Rule::Of(sided, Side::Right));
            write!(f, ", {right}")?;
        }
        writeln!(f)
    }

    // The lines of rules.
    fn write_rules<W: fmt::Write>(&self, f: &mut fmt::Formatter<W>, rules: &[Rule]) -> fmt::Result {
        for rule in rules {
            self.write_rule(f, *rule)?;
        }
        Ok(())
    }
}

impl fmt::Display for Tally {
    fn fmt<W: fmt::Write>(&self, f: &mut fmt::Formatter<W>) -> fmt::Result {
        writeln!(f, "scripts: {}", self.scripts)?;
        writeln!(f, "questions: {}", self.questions)?;
        writeln!(
            f,
            "  answered: yes, and stopped at the limit: {}, {}",
            self.yes, self.stopped
        )?;
        writeln!(
            f,
            "  failed: mismatch, and missing field: {}, {}",
            self.mismatches, self.missing
        )?;
        writeln!(f, "instalments: {}", self.instalments)?;
        writeln!(f, "steps: {}", self.steps)?;
        writeln!(f, "differences: {}", self.differences)?;
        writeln!(
            f,
            "How often each rule was hit; where there are two counts, on the left and on the right:"
        )?;
        self.write_rules(f, &WITH_VARIABLE)?;
        let repeated = self.repeated();
        let passed = self.marks.wrapping_sub(self.marks_put);
        let idle = self.steps.wrapping_sub(self.visited);
        writeln!(f, "  of these three, the bound was there: {repeated}")?;
        writeln!(f, "  marks passed on: {passed}")?;
        writeln!(f, "equal numbers, or visited before: {idle}")?;
        self.write_rules(f, &WITHOUT)
    }
}
