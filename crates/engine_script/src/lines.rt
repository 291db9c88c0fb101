//! The lines of a script, as `etcd_one replay` has them.

/// What a line asks for.
#[derive(Clone, Copy)]
pub enum Event<'a> {
    /// A request: its path and its body.
    Post(&'a str, &'a str),
    /// From here on this moment is handed in, in milliseconds.
    At(u64),
    Deliver(u64),
    Close(u64),
    Trim,
    Expire,
    /// A bad line.
    Bad,
}

/// What a line asks for.
pub fn event_of(line: &str) -> Event<'_> {
    match line.split_once(' ') {
        Some(("POST", request)) => post_of(request),
        Some((word, number)) => numbered(word, number),
        None => match line {
            "TRIM" => Event::Trim,
            "EXPIRE" => Event::Expire,
            _ => Event::Bad,
        },
    }
}

fn post_of(request: &str) -> Event<'_> {
    match request.split_once(' ') {
        Some((path, body)) => Event::Post(path, body),
        None => Event::Post(request, ""),
    }
}

fn numbered<'a>(word: &str, number: &str) -> Event<'a> {
    let Ok(number) = number.parse::<u64>() else {
        return Event::Bad;
    };
    match word {
        "AT" => Event::At(number),
        "DELIVER" => Event::Deliver(number),
        "CLOSE" => Event::Close(number),
        _ => Event::Bad,
    }
}
