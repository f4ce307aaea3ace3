//! Entries of one size, and an arena: callers that allocate nothing.

use uses::{Entry, fill_arena};

/// Whether an entry writes this name to the start of a buffer, and nothing after it.
fn hands_out(entry: &Entry, want: &str) -> bool {
    let mut buf = [0xEE; 32];
    let Ok(len) = entry.name(&mut buf) else {
        return false;
    };
    let Some((name, rest)) = buf.split_at_checked(len) else {
        return false;
    };
    name == want.as_bytes() && rest.iter().all(|byte| *byte == 0xEE)
}

/// How many bytes a name needs, if an entry rejects it.
fn rejected(entry: &mut Entry, name: &str) -> Option<usize> {
    Some(entry.set_name(name).err()?.needed())
}

/// How many bytes the name of an entry needs, if a buffer of 20 bytes is too short for it.
fn too_short(entry: &Entry) -> Option<usize> {
    Some(entry.name(&mut [0; 20]).err()?.needed())
}

#[test]
fn keeps_names_in_entries(rt: HostRuntime) {
    let mut entry = Entry::new(7);
    assert!(rt; hands_out(&entry, ""));
    // Five surrogate pairs and U+0000 take 32 bytes of MUTF-8, the most that an entry can hold.
    let long = "\u{1F496}\u{1F496}\u{1F496}\u{1F496}\u{1F496}\0";
    assert!(rt; rejected(&mut entry, long) == None && hands_out(&entry, long));
    // After a name that is too long, and after a buffer that is too short, the entry is unchanged.
    let longer = "\u{1F496}\u{1F496}\u{1F496}\u{1F496}\u{1F496}\0a";
    assert!(rt; rejected(&mut entry, longer) == Some(33));
    assert!(rt; too_short(&entry) == Some(21) && hands_out(&entry, long));
    assert!(rt; rejected(&mut entry, "a") == None && hands_out(&entry, "a"));
    assert!(rt; entry.id == 7);
}

/// Fills an arena with four texts. An error has the fields of `ArenaFull`.
fn fill(arena: &mut [u8], ends: &mut [usize; 4]) -> Result<usize, (usize, usize, usize)> {
    let texts = ["id", "", "\u{1F496}", "\0"];
    match fill_arena(&texts, arena, ends) {
        Ok(used) => Ok(used),
        Err(full) => Err((full.count, full.used, full.missing)),
    }
}

/// Whether an arena with a byte more than is needed is filled.
fn fills_all() -> bool {
    let mut arena = [0xEE; 10];
    let mut ends = [0; 4];
    fill(&mut arena, &mut ends) == Ok(9)
        && arena == *b"id\xED\xA0\xBD\xED\xB2\x96\x00\xEE"
        && ends == [2, 2, 8, 9]
}

/// Whether an arena that is too short is filled with the texts that fit.
fn fills_some() -> bool {
    let mut arena = [0xEE; 5];
    let mut ends = [0; 4];
    fill(&mut arena, &mut ends) == Err((2, 2, 3))
        && arena == *b"id\xEE\xEE\xEE"
        && ends[..2] == [2, 2]
}

#[test]
fn fills_an_arena(rt: HostRuntime) {
    assert!(rt; fills_all());
    assert!(rt; fills_some());
}
