//! The questions about files in the scripts of `log_scripts`. Each names a file in the script's folder.
//!
//! | Question | What the interpreter does | Answer |
//! |---|---|---|
//! | `write log header lock` | makes the file of these parts | |
//! | `has log header lock` | compares the whole file with these parts | `yes`, `no` |
//! | `begins log header` | compares the first bytes of the file | `yes`, `no` |
//! | `length log`, `mode log` | looks at the file | its length; its mode in octal digits |
//! | `kind log` | looks at what has this name | `file`, `folder`, `link`, `missing` |
//! | `remove log` | removes the file | |
//! | `rename log kept` | renames the file to `kept` | |
//! | `link other log` | makes `other` a symbolic link to `log` | |
//! | `make-folder log` | makes a folder | |
//!
//! A part names a sample. `lock*3` is three locks, `lock/20` is the first 20 bytes of a lock, and `lock@8=73` is a lock
//! with the byte 73 at place 8. The answer is `refused` if the system refuses.

use crate::log_scripts::{Answer, Word, first_word, path_of, yes_or_no};
use crate::samples::{
    ANOTHER, HEADER, LOCK, LONG_SNAPSHOT_HEADER, MARK, SNAPSHOT_HEADER, SPLIT_HEADER, VERSION_1,
};
use std::fs;
use std::io::{self, ErrorKind};
use std::os::unix::fs::{MetadataExt, symlink};

// ---- bytes

/// Returns the sample that has this name.
fn sample(name: &str) -> Option<&'static [u8]> {
    match name {
        "header" => Some(&HEADER),
        "lock" => Some(&LOCK),
        "mark" => Some(&MARK),
        "another" => Some(&ANOTHER),
        "snapshot-header" => Some(&SNAPSHOT_HEADER),
        "long-snapshot-header" => Some(&LONG_SNAPSHOT_HEADER),
        "split-header" => Some(&SPLIT_HEADER),
        "version-1" => Some(&VERSION_1),
        _ => None,
    }
}

/// Adds the sample so many times.
fn push_many(bytes: &mut Vec<u8>, name: &str, count: &str) -> Option<()> {
    let part = sample(name)?;
    for _ in 0..count.parse::<u32>().ok()? {
        bytes.extend_from_slice(part).ok()?;
    }
    Some(())
}

/// Adds the first bytes of the sample.
fn push_front(bytes: &mut Vec<u8>, name: &str, length: &str) -> Option<()> {
    let part = sample(name)?.get(..length.parse().ok()?)?;
    bytes.extend_from_slice(part).ok()
}

/// Adds the sample with another byte at a place, such as `8=73`.
fn push_changed(bytes: &mut Vec<u8>, name: &str, change: &str) -> Option<()> {
    let part = sample(name)?;
    let (place, byte) = change.split_once('=')?;
    let place = place.parse::<usize>().ok()?;
    let (_, behind) = part.get(place..)?.split_first()?;
    bytes.extend_from_slice(part.get(..place)?).ok()?;
    bytes.push(byte.parse().ok()?).ok()?;
    bytes.extend_from_slice(behind).ok()
}

/// Adds the bytes of one part.
fn push_part(bytes: &mut Vec<u8>, word: &str) -> Option<()> {
    if let Some((name, count)) = word.split_once('*') {
        return push_many(bytes, name, count);
    }
    if let Some((name, length)) = word.split_once('/') {
        return push_front(bytes, name, length);
    }
    if let Some((name, change)) = word.split_once('@') {
        return push_changed(bytes, name, change);
    }
    push_many(bytes, word, "1")
}

/// Adds the bytes of all parts.
fn push_parts(bytes: &mut Vec<u8>, words: &str) -> Option<()> {
    for word in words.split_whitespace() {
        push_part(bytes, word)?;
    }
    Some(())
}

// ---- files

/// Answers a command to the system.
fn done(answer: io::Result<()>) -> Answer {
    match answer {
        Ok(()) => Answer::Done,
        Err(_) => Answer::Word(Word::Refused),
    }
}

/// Writes the bytes into the file, or compares them with the file's.
fn use_bytes(rt: &HostRuntime, word: &str, path: &str, bytes: &[u8]) -> Answer {
    if word == "write" {
        return done(fs::write(rt, path, bytes));
    }
    match fs::read(rt, path) {
        Err(_) => Answer::Word(Word::Refused),
        Ok(found) if word == "has" => yes_or_no(found.as_slice() == bytes),
        Ok(found) => yes_or_no(found.starts_with(bytes)),
    }
}

/// Does the same with the bytes of these parts.
fn use_words(rt: &HostRuntime, word: &str, path: &str, words: &str) -> Answer {
    let mut bytes = Vec::new(rt.alloc());
    match push_parts(&mut bytes, words) {
        Some(()) => use_bytes(rt, word, path, &bytes),
        None => Answer::Unknown,
    }
}

/// Answers what has the path.
fn kind(rt: &HostRuntime, path: &str) -> Answer {
    match fs::symlink_metadata(rt, path) {
        Ok(metadata) if metadata.is_file() => Answer::Word(Word::File),
        Ok(metadata) if metadata.is_dir() => Answer::Word(Word::Folder),
        Ok(_) => Answer::Word(Word::Link),
        Err(error) if error.kind() == ErrorKind::NotFound => Answer::Word(Word::Missing),
        Err(_) => Answer::Word(Word::Refused),
    }
}

/// Answers how long the file is, or what its mode is.
fn measure(rt: &HostRuntime, word: &str, path: &str) -> Answer {
    match fs::metadata(rt, path) {
        Ok(metadata) if word == "length" => Answer::Number(metadata.len()),
        Ok(metadata) => Answer::Mode(metadata.mode() & 0o777),
        Err(_) => Answer::Word(Word::Refused),
    }
}

/// Answers a question about one path.
fn use_path(rt: &HostRuntime, word: &str, path: &str) -> Answer {
    match word {
        "length" | "mode" => measure(rt, word, path),
        "kind" => kind(rt, path),
        "remove" => done(fs::remove_file(rt, path)),
        "make-folder" => done(fs::create_dir(rt, path)),
        _ => Answer::Unknown,
    }
}

/// Answers a question about two paths.
fn use_paths(rt: &HostRuntime, folder: &str, word: &str, path: &str, name: &str) -> Answer {
    match path_of(rt.alloc(), folder, name) {
        Ok(other) if word == "rename" => done(fs::rename(rt, path, other.as_str())),
        Ok(other) => done(symlink(rt, other.as_str(), path)),
        Err(_) => Answer::Unknown,
    }
}

/// Answers a question about a file in the folder.
pub fn use_file(rt: &HostRuntime, folder: &str, word: &str, rest: &str) -> Answer {
    let (name, rest) = first_word(rest);
    let Ok(path) = path_of(rt.alloc(), folder, name) else {
        return Answer::Unknown;
    };
    match word {
        "write" | "has" | "begins" => use_words(rt, word, &path, rest),
        "rename" | "link" => use_paths(rt, folder, word, &path, rest),
        _ if rest.is_empty() => use_path(rt, word, &path),
        _ => Answer::Unknown,
    }
}
