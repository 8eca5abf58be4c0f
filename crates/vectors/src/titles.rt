// The titles of cases.
use crate::output::say;
use crate::reading::read_bytes;

// Reads a case's title, and prints it.
pub fn say_title() {
    let mut title = [0u8; 256];
    let n = read_bytes(&mut title);
    say(&title[..n]);
    say(b":");
}
