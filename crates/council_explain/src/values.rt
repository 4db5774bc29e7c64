//! What is wrong with the keys and values of a file in TOML.
use crate::file::{File, Lines, elements_of};
use crate::numbers::{explain_range, kind};
use council_game::{GameFault, limits, sanitize};
use std::num::{nearest_u64_to_f64, saturating_f64_to_u64};
use std::slice;
use toml::{Table, Value};

/// What a value is to be.
pub const MEMBERS: &str =
    "each member begins with a line [[member]], with two brackets on each side";

const WAYS: &str = "ways are 1 to 6 arrays of rules, such as ways = [[1, 2], [3]]";

/// Returns whether a member may have a key, or else the top of a file.
fn is_known(key: &str, is_member: bool) -> bool {
    match key {
        "title" | "quota" | "quotas" | "ways" | "member" => !is_member,
        "name" | "weight" | "weights" => is_member,
        _ => false,
    }
}

/// Returns the first key that the table of a member may not have, or that of the top.
fn unknown_key(table: &Table, is_member: bool) -> Option<&str> {
    for key in table.keys() {
        if !is_known(key.as_str(), is_member) {
            return Some(key.as_str());
        }
    }
    None
}

/// Returns the bit of a rule; 0 if there is no such rule.
fn bit_of(rule: &Value, rules: usize) -> u8 {
    let number = usize::try_from(rule.as_integer().unwrap_or(0)).unwrap_or(0);
    match [0, 1, 2, 4, 8].get(number) {
        Some(bit) if number <= rules => *bit,
        _ => 0,
    }
}

/// Returns the bits of the rules of a way.
fn bits_of(way: &Value) -> u8 {
    let mut bits = 0;
    for rule in elements_of(Some(way)) {
        bits |= bit_of(rule, limits::RULES);
    }
    bits
}

/// Returns the number of the first way, other than one, that has only rules with these bits.
fn find_covered(ways: &[Value], place: usize, bits: u8) -> Option<usize> {
    for (other, way) in ways.iter().enumerate() {
        if other != place && bits_of(way) & !bits == 0 {
            return Some(other.saturating_add(1));
        }
    }
    None
}

impl File {
    /// Says which key the file, or else a member, may not have.
    pub fn explain_unknown_key(&self, lines: &mut Lines) {
        for member in 0..=self.elements("member").len() {
            if let Some(table) = self.table_of(member)
                && let Some(key) = unknown_key(table, 0 < member)
            {
                self.explain_key(lines, member, key);
                let keys = ": the keys are title, quota, quotas, ways and member";
                if member == 0 {
                    return lines.add_of("at the top there is no key ", key, keys, "");
                }
                let keys = ": its keys are name, weight and weights";
                lines.add_of("a member has no key ", key, keys, "");
                if is_known(key, false) {
                    lines.add("what belongs to the game stands before the first [[member]]");
                }
                return;
            }
        }
    }

    /// Says what is wrong with the name of a member, or else with the title.
    pub fn explain_text(&self, lines: &mut Lines, member: usize) {
        let name = "a name is a text in quotes, of 1 to 64 bytes, on one line";
        let title = "a title is a text in quotes, of at most 200 bytes, on one line";
        let control = "a TAB, the end of a line or another control character";
        let (key, most, wanted) = match member {
            0 => ("title", limits::TITLE_BYTES, title),
            _ => ("name", limits::NAME_BYTES, name),
        };
        self.explain_key(lines, member, key);
        match self.value_of(member, key) {
            None => lines.add_of("the member has no ", key, ": ", wanted),
            Some(Value::String(text)) if (1..=most).contains(&text.len()) => {
                lines.add_of("the text has ", control, ": ", wanted);
            }
            Some(Value::String(text)) => {
                lines.add_of("the text has ", text.len(), " bytes: ", wanted);
            }
            Some(value) => lines.add_of("", value, kind(value), wanted),
        }
    }

    /// Says which earlier member has the name of this one.
    pub fn explain_same_name(&self, lines: &mut Lines, member: usize) {
        self.explain_key(lines, member, "name");
        let Some(Value::String(name)) = self.value_of(member, "name") else {
            return;
        };
        for earlier in 1..member {
            if let Some(Value::String(text)) = self.value_of(earlier, "name")
                && text == name
            {
                let wanted = "too: each name stands once";
                let shown = sanitize(text.as_str(), 100);
                lines.add(format_args!("member {earlier} is named {shown} {wanted}"));
                return self.explain_key(lines, earlier, "name");
            }
        }
    }

    /// Says what is wrong with the weight or the weights of a member.
    pub fn explain_weight(&self, lines: &mut Lines, member: usize) {
        let wanted = "a weight is a whole number from 0 to 1000000000000, without quotes";
        let rules = self.elements("quotas").len();
        let key = if rules == 0 { "weight" } else { "weights" };
        self.explain_key(lines, member, key);
        match self.value_of(member, key) {
            None => lines.add_of("the member has no ", key, "", ": each member has its own"),
            Some(value) if rules == 0 => self.explain_number(lines, value, wanted),
            Some(Value::Array(weights)) if weights.len() == rules => {
                for weight in weights.as_slice() {
                    if !matches!(weight, Value::Integer(0..=1_000_000_000_000)) {
                        return self.explain_number(lines, weight, wanted);
                    }
                }
            }
            Some(_) => lines.add("weights are an array, with a number for each rule"),
        }
    }

    /// Says that there is no member, or too many, or that they are no tables.
    pub fn explain_members(&self, lines: &mut Lines) {
        let count = self.elements("member").len();
        match self.table.get("member") {
            None => lines.add_of("the file has no ", "member", ": ", MEMBERS),
            Some(Value::Array(_)) if (1..=limits::MEMBERS).contains(&count) => {
                lines.add("a member is a table with a name and a weight");
            }
            Some(Value::Array(_)) => {
                lines.add_of("the file has ", count, " members: ", "1 to 40 are allowed");
            }
            Some(value) => {
                self.explain_key(lines, 0, "member");
                lines.add_of("member", kind(value), "", MEMBERS);
            }
        }
    }

    /// Says what is wrong with quotas, or which keys do not go together.
    pub fn explain_quotas(&self, lines: &mut Lines, fault: GameFault) {
        self.explain_key(lines, 0, "quotas");
        self.explain_key(lines, 0, "quota");
        let is_rules = matches!(fault, GameFault::Rules);
        let is_range = matches!(fault, GameFault::QuotaRange);
        let wanted = match fault {
            GameFault::Rules => "quotas are 1 to 4 whole numbers",
            _ => "a quota is a whole number, without quotes",
        };
        let (first, values) = match self.table.get("quota") {
            Some(quota) if !is_rules => (0, slice::from_ref(quota)),
            _ => (1, self.elements("quotas")),
        };
        for (rule, value) in values.iter().enumerate() {
            let total = self.total_of(rule);
            let most = i64::try_from(total.unwrap_or(0)).unwrap_or(i64::MAX);
            match value {
                Value::Integer(number) if is_range && !(1..=most).contains(number) => {
                    let rule = rule.saturating_add(first);
                    return explain_range(lines, rule, number, total.unwrap_or(0));
                }
                Value::Integer(_) => {}
                _ => return self.explain_share(lines, value, total, wanted),
            }
        }
        let has_quotas = self.table.contains_key("quotas");
        let is_one = self.table.contains_key("quota");
        let is_pair = is_one || (1..=limits::RULES).contains(&self.elements("quotas").len());
        let empty = "the file holds no game: it has neither a quota nor a member";
        lines.add(match fault {
            GameFault::Rules if is_one && has_quotas => {
                "quota and quotas are both there: a game has one of them"
            }
            GameFault::Rules if is_pair => "weight goes with quota, and weights go with quotas",
            GameFault::Rules => "quotas are an array of 1 to 4 whole numbers",
            _ if self.table.is_empty() => empty,
            _ => "the file has no quota: write a line such as quota = 51 before the members",
        });
    }

    /// Says what is wrong with a quota, and how many votes a share of whole weights is.
    fn explain_share(&self, lines: &mut Lines, quota: &Value, total: Option<u64>, wanted: &str) {
        match (quota, total) {
            (Value::Float(share), Some(total)) if 0.0 < *share && *share < 1.0 && 0 < total => {
                lines.add_of("", quota, kind(quota), wanted);
                // 0.29 of 100 is 28.999999999999996
                let votes = *share * nearest_u64_to_f64(total);
                let slack = votes * 1e-15 + 1e-9;
                let least = saturating_f64_to_u64(votes - slack).saturating_add(1);
                let more = saturating_f64_to_u64(votes + slack).saturating_add(1);
                lines.add(format_args!(
                    "a share of the total: write {least} for at least {share} of {total}, {more} for more than that"
                ));
            }
            _ => self.explain_number(lines, quota, wanted),
        }
    }

    /// Returns the total of the weights under a rule, if they are whole numbers; 0 for those below.
    fn total_of(&self, rule: usize) -> Option<u64> {
        let mut total = 0u64;
        for member in 1..=self.elements("member").len() {
            let weight = match self.value_of(member, "weights") {
                Some(weights) => elements_of(Some(weights)).get(rule),
                None => self.value_of(member, "weight"),
            };
            total = total.saturating_add(u64::try_from(weight?.as_integer()?).unwrap_or(0));
        }
        Some(total)
    }

    /// Says what is wrong with ways.
    pub fn explain_ways(&self, lines: &mut Lines) {
        let ways = self.elements("ways");
        let rules = self.elements("quotas").len();
        let alone = "ways go with quotas: a game of one quota has one way to win";
        if rules == 0 || !(1..=limits::WAYS).contains(&ways.len()) {
            self.explain_key(lines, 0, "ways");
            return lines.add(if rules == 0 { alone } else { WAYS });
        }
        let mut used = 0;
        for (place, way) in ways.iter().enumerate() {
            if self.explain_way(lines, place.saturating_add(1), way, rules) {
                return;
            }
            used |= bits_of(way);
        }
        for (place, way) in ways.iter().enumerate() {
            if let Some(other) = find_covered(ways, place, bits_of(way)) {
                let number = place.saturating_add(1);
                self.explain_line(lines, "ways", number, None);
                return lines.add(format_args!(
                    "way {number} has all rules of way {other}: it lets nobody else win"
                ));
            }
        }
        self.explain_key(lines, 0, "ways");
        let unused = (!used).trailing_zeros().saturating_add(1);
        lines.add_of("rule ", unused, " is in no way: each rule is in one", "");
    }

    /// Says what is wrong with a way by itself, and returns whether something is.
    fn explain_way(&self, lines: &mut Lines, number: usize, way: &Value, rules: usize) -> bool {
        let known = ": rules are numbered as their quotas, from 1";
        let mut bits = 0;
        for rule in elements_of(Some(way)) {
            let bit = bit_of(rule, rules);
            if bit == 0 {
                self.explain_line(lines, "ways", number, None);
                lines.add_of("there is no rule ", rule, known, "");
                return true;
            }
            if bits & bit != 0 {
                self.explain_line(lines, "ways", number, None);
                lines.add_of("rule ", rule, " is twice in one way", "");
                return true;
            }
            bits |= bit;
        }
        let empty = "a way has at least one rule";
        if bits == 0 {
            self.explain_line(lines, "ways", number, None);
            let is_array = matches!(way, Value::Array(_));
            lines.add(if is_array { empty } else { WAYS });
        }
        bits == 0
    }
}
