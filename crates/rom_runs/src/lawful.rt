//! Texts that are those of one history, and texts that are not.

use crate::model::Elements;
use rom_test::is_lawful;
use std::test::Fail;

#[test]
fn a_text_of_no_history_is_found(rt: HostRuntime) -> Result<(), Fail> {
    let alloc = rt.alloc();
    let scripts = ["put 1 1\nget 1\n", "put 1 2\n"];
    let rows = [
        ("none @0\nvalue 2 #2\n", "was 1 @1\n", "count 2\n", true),
        ("none @0\nvalue 1 #1\n", "was 1 @1\n", "count 2\n", true),
        ("was 2 @1\nvalue 1 #2\n", "none @0\n", "count 2\n", true),
        // The value is not that of the front, or the front is before the caller's own place.
        ("none @0\nvalue 1 #2\n", "was 1 @1\n", "count 2\n", false),
        ("was 2 @1\nvalue 2 #1\n", "none @0\n", "count 2\n", false),
        // The front is past the count, or there is another number of updates, or none.
        ("none @0\nvalue 2 #3\n", "was 1 @1\n", "count 2\n", false),
        ("none @0\nvalue 1 #1\n", "was 1 @1\n", "count 1\n", false),
        ("none @0\nvalue 1 #1\n", "was 1 @1\n", "count 3\n", false),
        ("none @0\nvalue 1 #1\n", "was 1 @1\n", "", false),
        // A reply is wrong, a place stands twice, none stands there, or a line is not told.
        ("none @0\nvalue 1 #1\n", "none @1\n", "count 2\n", false),
        ("none @0\nvalue 1 #1\n", "none @0\n", "count 2\n", false),
        ("none @0\nvalue 1 #1\n", "fault\n", "count 2\n", false),
        ("none @0\nvalue 1 #1\n", "spent\n", "count 1\n", false),
        ("none @0\n", "was 1 @1\n", "count 2\n", false),
    ];
    for (first, second, count, lawful) in rows {
        let text = format!(in alloc; "caller 1\n{first}caller 2\n{second}{count}")?;
        let mut model = Elements::new(alloc)?;
        let found = is_lawful(alloc, &mut model, 0, &scripts, text.as_str())?;
        assert_eq!(rt; found, lawful, "{first}{second}{count}");
    }
    Ok(())
}
