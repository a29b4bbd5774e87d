//! What became of groups, by what is printed of them.

/// What members are told that do not succeed.
static FAILURES: [&str; 8] = [
    "full", "empty", "present", "absent", "none", "short", "over", "other",
];

/// How many groups were done, and how many were not, by the member that failed and by what it was told.
#[derive(Clone, Copy)]
pub struct Tally {
    pub done: u64,
    pub undone: u64,
    pub members: [u64; 8],
    pub failures: [u64; 8],
}

impl Tally {
    fn take_undone(&mut self, told: &str) {
        let (member, why) = told.split_once(" ").unwrap_or((told, ""));
        self.undone = self.undone.saturating_add(1);
        let member = member.parse::<usize>().unwrap_or(0);
        if let Some(many) = self.members.get_mut(member.wrapping_sub(1)) {
            *many = many.saturating_add(1);
        }
        for (many, failure) in self.failures.iter_mut().zip(&FAILURES) {
            if why.starts_with(*failure) {
                *many = many.saturating_add(1);
            }
        }
    }

    /// The groups of a text.
    pub fn of(text: &str) -> Tally {
        let mut tally = Tally {
            done: 0,
            undone: 0,
            members: [0; 8],
            failures: [0; 8],
        };
        for line in text.lines() {
            if line.starts_with("done ") {
                tally.done = tally.done.saturating_add(1);
            } else if let Some(told) = line.strip_prefix("undone ") {
                tally.take_undone(told);
            }
        }
        tally
    }

    /// Whether each member failed at some time, and by each of the reasons that there are.
    pub fn has_each(&self) -> bool {
        self.members.iter().all(|many| *many > 0) && self.failures.iter().all(|many| *many > 0)
    }
}
