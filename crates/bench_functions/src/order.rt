//! What the command line asks for.

/// What is measured together.
#[derive(Clone, Copy)]
pub enum Group {
    Codec,
    Link,
    Session,
    Disposition,
    Endpoint,
    Serve,
}

/// Every group, in the order in which they are run.
pub const GROUPS: [Group; 6] = [
    Group::Codec,
    Group::Link,
    Group::Session,
    Group::Disposition,
    Group::Endpoint,
    Group::Serve,
];

/// What is to be done.
#[derive(Clone, Copy)]
pub enum Order<'w> {
    /// Each case once, not timed.
    Once,
    /// A list of the cases.
    Help,
    /// The cases of a group, or the one of this name, in this many rounds or in as many as each has by
    /// itself.
    Timed {
        group: Group,
        case: Option<&'w str>,
        rounds: Option<u32>,
    },
}

/// Returns what the words after the program's name ask for. None for any other words.
pub fn order_of(words: &[String]) -> Option<Order<'_>> {
    match words {
        [] => Some(Order::Once),
        [help] if help.as_str() == "--help" => Some(Order::Help),
        [group] => Some(Order::Timed {
            group: group_of(group)?,
            case: None,
            rounds: None,
        }),
        [group, case] => Some(Order::Timed {
            group: group_of(group)?,
            case: Some(case.as_str()),
            rounds: None,
        }),
        [group, case, rounds] => Some(Order::Timed {
            group: group_of(group)?,
            case: Some(case.as_str()),
            rounds: Some(rounds.parse().ok()?),
        }),
        _ => None,
    }
}

fn group_of(word: &str) -> Option<Group> {
    match word {
        "codec" => Some(Group::Codec),
        "link" => Some(Group::Link),
        "session" => Some(Group::Session),
        "disposition" => Some(Group::Disposition),
        "endpoint" => Some(Group::Endpoint),
        "serve" => Some(Group::Serve),
        _ => None,
    }
}
