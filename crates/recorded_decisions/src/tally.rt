//! Counts of answers.
use std::io;

/// How many answers were compared, and how many of them are not those wanted.
#[derive(Clone, Copy, Debug)]
pub struct Tally {
    answers: u64,
    failed: u64,
}

impl Tally {
    /// None yet.
    pub fn new() -> Tally {
        Tally {
            answers: 0,
            failed: 0,
        }
    }

    /// Counts an answer, and shows it with its line if another one is wanted.
    pub fn compare(
        &mut self,
        rt: &HostRuntime,
        line: &str,
        wanted: &str,
        answer: &str,
    ) -> io::Result<()> {
        self.answers = self.answers.saturating_add(1);
        if answer == wanted {
            return Ok(());
        }
        self.failed = self.failed.saturating_add(1);
        println!(rt; "{line}\n  {answer}")
    }

    /// Shows the counts.
    pub fn show(&self, rt: &HostRuntime, title: &str) -> io::Result<()> {
        let answers = self.answers;
        let failed = self.failed;
        println!(rt; "{answers} answers, {failed} failed: {title}")
    }
}
