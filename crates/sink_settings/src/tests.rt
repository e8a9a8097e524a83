//! Configurations that are read, and one that is refused by each fault.
use crate::{SettingsFault, read_settings};
use std::alloc::{AllocError, Global};
use std::process::Abort;
use std::test::Fail;

const UPDATE: &str = "0123456789abcdef0123456789abcdef0123456789abcdef0123456789abcdef";

/// The lines of a configuration, with the number, the name and the path of its fault.
const ROWS: [(&str, u8, &str, &str); 15] = [
    ("token = \"t\"\nupdate_token = \"U\"\n", 0, "", ""),
    ("update_token = \"U\"\ntoken = \"~!\"\n", 0, "", ""),
    ("token = \n", 1, "NotToml", ""),
    (
        "token = \"t\"\ntoken = \"t\"\nupdate_token = \"U\"\n",
        1,
        "NotToml",
        "",
    ),
    ("", 8, "BadShape", "token"),
    ("token = \"t\"\n", 8, "BadShape", "update_token"),
    ("token = 1\nupdate_token = \"\"\n", 8, "BadShape", "token"),
    (
        "token = \"t\"\nupdate_token = [\"U\"]\n",
        8,
        "BadShape",
        "update_token",
    ),
    (
        "token = \"\"\nupdate_token = \"U\"\nmore = 1\n",
        8,
        "BadShape",
        "more",
    ),
    (
        "token = \"\"\nupdate_token = \"U\"\n",
        2,
        "BadName",
        "token",
    ),
    (
        "token = \"a b\"\nupdate_token = \"u\"\n",
        2,
        "BadName",
        "token",
    ),
    (
        "token = \"é\"\nupdate_token = \"U\"\n",
        2,
        "BadName",
        "token",
    ),
    (
        "token = \"t\"\nupdate_token = \"U0\"\n",
        2,
        "BadName",
        "update_token",
    ),
    (
        "token = \"t\"\nupdate_token = \"\"\n",
        2,
        "BadName",
        "update_token",
    ),
    (
        "token = \"t\"\nupdate_token = \"0123456789ABCDEF0123456789abcdef0123456789abcdef0123456789abcdef\"\n",
        2,
        "BadName",
        "update_token",
    ),
];

/// The text in which each `U` is a whole update token.
fn text_of(alloc: Global, line: &str) -> Result<String, AllocError> {
    let mut text = String::new(alloc);
    for (place, part) in line.split('U').enumerate() {
        if place > 0 {
            text.push_str(UPDATE)?;
        }
        text.push_str(part)?;
    }
    Ok(text)
}

fn check_row(rt: &impl Abort, alloc: Global, row: &(&str, u8, &str, &str)) -> Result<(), Fail> {
    let (line, number, name, path) = *row;
    let text = text_of(alloc, line)?;
    match read_settings(alloc, text.as_bytes()) {
        Ok(settings) => {
            assert_eq!(rt; number, 0, "{line}");
            assert_eq!(rt;
                settings.update_token.as_slice(),
                UPDATE.as_bytes(),
                "{line}"
            );
            assert!(rt; !settings.token.is_empty(), "{line}");
        }
        Err(fault) => {
            assert_eq!(rt; (fault.number(), fault.name()), (number, name), "{line}");
            if let SettingsFault::BadName { at } | SettingsFault::BadShape { at } = fault {
                assert_eq!(rt; at.as_slice(), path.as_bytes(), "{line}");
            }
        }
    }
    Ok(())
}

#[test]
fn configurations_are_read_or_refused(rt: HostRuntime) -> Result<(), Fail> {
    for row in &ROWS {
        check_row(&rt, rt.alloc(), row)?;
    }
    Ok(())
}

#[test]
fn more_than_four_mebibytes_are_refused(rt: HostRuntime) -> Result<(), Fail> {
    let text = vec![in rt.alloc(); b'#'; 4_194_305]?;
    match read_settings(rt.alloc(), text.as_slice()) {
        Err(SettingsFault::TooMany { count }) => assert_eq!(rt; count, 4_194_305),
        _ => assert!(rt; false, "a text that is too long was read"),
    }
    Ok(())
}
