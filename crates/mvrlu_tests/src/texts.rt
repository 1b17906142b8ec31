// What is looked for in printed texts.

// The number that stands behind a word of a line.
fn number_after(line: &str, word: &str) -> Option<u64> {
    let mut found = false;
    for part in line.split(' ') {
        if found {
            return part.parse().ok();
        }
        found = part == word;
    }
    None
}

/// The sum of the numbers that stand behind a word, over all lines.
pub fn sum_after(text: &[u8], word: &str) -> u64 {
    let mut sum: u64 = 0;
    if let Ok(text) = str::from_utf8(text) {
        for line in text.lines() {
            sum = sum.saturating_add(number_after(line, word).unwrap_or(0));
        }
    }
    sum
}

/// How many lines have this end.
pub fn count_ends(text: &[u8], end: &str) -> usize {
    let mut count: usize = 0;
    if let Ok(text) = str::from_utf8(text) {
        for line in text.lines() {
            if line.ends_with(end) {
                count = count.saturating_add(1);
            }
        }
    }
    count
}

/// How many lines have this start.
pub fn count_starts(text: &[u8], start: &str) -> u64 {
    let mut count: u64 = 0;
    if let Ok(text) = str::from_utf8(text) {
        for line in text.lines() {
            if line.starts_with(start) {
                count = count.saturating_add(1);
            }
        }
    }
    count
}

/// The number that stands behind a word of the first line with this start.
pub fn number_in(text: &[u8], start: &str, word: &str) -> Option<u64> {
    for line in str::from_utf8(text).ok()?.lines() {
        if line.starts_with(start) {
            return number_after(line, word);
        }
    }
    None
}

/// Whether a summary counts no worn reply, and 8,000 that are yes or no.
pub fn has_no_worn_of_8000(text: &[u8]) -> bool {
    let known = sum_after(text, "yes").saturating_add(sum_after(text, "no"));
    sum_after(text, "worn") == 0 && known == 8000
}

/// The printed time of a line.
pub fn time_of(line: &str) -> Option<u64> {
    for word in line.split(' ') {
        if let Some(digits) = word.strip_prefix('c') {
            return digits.parse().ok();
        }
        if let Some(digits) = word.strip_prefix('r') {
            return digits.parse().ok();
        }
    }
    None
}
