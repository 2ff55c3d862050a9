//! The numbers of a run's report.

/// What a run took.
#[derive(Clone, Copy, Debug, PartialEq, Eq)]
pub struct Counts {
    pub steps: u64,
    pub issued: u64,
    pub loads: u64,
    pub stores: u64,
}

/// The number behind a word of a line.
fn number_behind(line: &str, label: &str) -> Option<u64> {
    let mut words = line.split(' ');
    for word in &mut words {
        if word == label {
            break;
        }
    }
    words.next()?.parse().ok()
}

/// The counts that a report tells in its second line.
pub fn counts_in(report: &str) -> Option<Counts> {
    let line = report.lines().nth(1)?;
    Some(Counts {
        steps: number_behind(line, "steps")?,
        issued: number_behind(line, "issued")?,
        loads: number_behind(line, "loads")?,
        stores: number_behind(line, "stores")?,
    })
}
