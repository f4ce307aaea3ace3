//! Where the last whole character of a window ends, if the window is well-formed. It is a guess
//! from the last bytes alone: its caller tests it, so a wrong one costs time and nothing else.
//!
//! The window is UTF-8, CESU-8 or MUTF-8. A form is a character of one to four bytes, or one half
//! of a surrogate pair.

ghost use Rattle.std.specs.Prelude.{◌≤◌, length};

/// Returns where the last whole character of the window ends.
pub fn whole_characters(window: &[u8]) -> usize
    ensures { result ≤ length window.now }
{
    let end = before_cut_form(window);
    // The high surrogate of a pair whose low surrogate is cut off: ED A0 to ED AF.
    if end >= 3 && window[end - 3] == 0xED && window[end - 2] & 0xF0 == 0xA0 {
        return end - 3;
    }
    end
}

/// Returns where the last form of one to four bytes begins if the end of the window cuts it, and
/// otherwise the length of the window.
fn before_cut_form(window: &[u8]) -> usize
    ensures { result ≤ length window.now }
{
    let len = window.len();
    for seen in 1..4 {
        if len < seen {
            return len;
        }
        let byte = window[len - seen];
        if byte < 0x80 {
            return len;
        }
        if byte >= 0xC0 {
            return if seen < form_len(byte) {
                len - seen
            } else {
                len
            };
        }
    }
    len
}

/// Returns how many bytes a form with this lead byte has.
fn form_len(lead: u8) -> usize {
    if lead < 0xE0 {
        2
    } else if lead < 0xF0 {
        3
    } else {
        4
    }
}
