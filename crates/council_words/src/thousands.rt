//! Numbers that people read.
use std::fmt::{self, Display, Formatter, Write};

/// The places of the groups of three digits, the greatest first.
const GROUPS: [u64; 7] = [
    1_000_000_000_000_000_000,
    1_000_000_000_000_000,
    1_000_000_000_000,
    1_000_000_000,
    1_000_000,
    1_000,
    1,
];

/// A number with a comma between each three digits.
#[derive(Clone, Copy)]
pub(crate) struct Thousands(pub u64);

impl Display for Thousands {
    fn fmt<W: Write>(&self, f: &mut Formatter<W>) -> fmt::Result {
        let mut has_begun = false;
        for group in GROUPS {
            let digits = self.0.checked_div(group).unwrap_or(0) % 1000;
            if has_begun {
                write!(f, ",{digits:03}")?;
            } else if digits > 0 || group == 1 {
                write!(f, "{digits}")?;
                has_begun = true;
            }
        }
        Ok(())
    }
}

#[cfg(test)]
mod tests {
    use crate::thousands::Thousands;
    use std::alloc::Global;
    use std::process::Abort;

    /// Checks that a number is shown as wanted.
    fn check(rt: &impl Abort, alloc: Global, number: u64, wanted: &str) {
        let text = format!(in alloc; "{}", Thousands(number)).expect(rt, "a text");
        assert!(rt; text.as_str() == wanted, "{text} instead of {wanted}");
    }

    #[test]
    fn each_group_has_three_digits(rt: HostRuntime) {
        let alloc = rt.alloc();
        check(&rt, alloc, 0, "0");
        check(&rt, alloc, 999, "999");
        check(&rt, alloc, 1_000, "1,000");
        check(&rt, alloc, u64::MAX, "18,446,744,073,709,551,615");
    }
}
