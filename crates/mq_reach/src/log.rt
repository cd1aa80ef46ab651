//! Logs that are taken for scripts.

fn are_digits(bytes: &[u8]) -> bool {
    bytes.iter().all(|byte| byte.is_ascii_digit())
}

// 2026-11-27..
fn begins_with_date(bytes: &[u8]) -> bool {
    match bytes {
        [year @ .., b'-', m1, m2, b'-', d1, d2] if year.len() == 4 => {
            are_digits(year) && are_digits(&[*m1, *m2, *d1, *d2])
        }
        _ => false,
    }
}

// 1700000000: ..
fn begins_with_seconds(line: &[u8]) -> bool {
    let digits = line.iter().take_while(|byte| byte.is_ascii_digit()).count();
    match line.get(digits..) {
        Some(rest) => digits > 0 && rest.starts_with(b": "),
        None => false,
    }
}

/// Whether a line begins as one of a log of mosquitto: with the seconds and a colon, or with a date.
pub fn begins_as_log(line: &[u8]) -> bool {
    if begins_with_seconds(line) {
        return true;
    }
    match line.get(..10) {
        Some(front) => begins_with_date(front),
        None => false,
    }
}
