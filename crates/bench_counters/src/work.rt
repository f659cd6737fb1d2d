//! What a run does.
ghost use Rattle.std.specs.Prelude.{◌≤◌};

/// How many clients there are, how many requests each of their batches has, and how many batches each sends.
#[derive(Clone, Copy)]
pub(crate) struct Work {
    pub(crate) clients: u32,
    pub(crate) size: u64,
    pub(crate) rounds: u64,
    ghost some: { 1 ≤ clients },
    ghost few: { clients ≤ 3 },
    ghost size_most: { size ≤ 16 },
    ghost rounds_most: { rounds ≤ 1000000000 },
}

/// What the words of the process ask for, if they are lawful.
pub(crate) fn work_of(words: &[String]) -> Option<Work> {
    let [clients, size, rounds] = words else {
        return None;
    };
    let clients = clients.parse::<u32>().ok()?;
    let size = size.parse::<u64>().ok()?;
    let rounds = rounds.parse::<u64>().ok()?;
    let lawful = (1..=3).contains(&clients) && (1..=16).contains(&size) && rounds <= 1_000_000_000;
    if lawful {
        Some(Work {
            clients,
            size,
            rounds,
        })
    } else {
        None
    }
}
