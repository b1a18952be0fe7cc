//! Owners, texts and names, symbols, lists, and the words of the command line.
use iv_list::Items;
use iv_shared::Shared;
use iv_text::{Mem, Name, Text, spelling, symbol};
use iv_words::{BadWords, Task, task_given};
use std::alloc::Global;
use std::process::Abort;

fn got<T>(rt: &impl Abort, made: Mem<T>) -> T {
    made.expect(rt, "memory")
}

fn numbers(rt: &impl Abort, alloc: Global, given: &[u32]) -> Items<u32> {
    let mut items = Items::new(alloc);
    for number in given {
        got(rt, items.push(*number));
    }
    items
}

/// The words of a line.
fn words(rt: &impl Abort, alloc: Global, line: &str) -> Vec<String> {
    let mut words = Vec::new(alloc);
    for word in line.split_ascii_whitespace() {
        let word = String::from_str(alloc, word).expect(rt, "memory");
        words.push(word).expect(rt, "memory");
    }
    words
}

#[test]
fn owners_share_a_value(rt: HostRuntime) {
    let one = Shared::new(rt.alloc(), 7).expect(&rt, "memory");
    let two = one.share().expect(&rt, "memory");
    drop(one);
    assert_eq!(rt; *two.get(), 7);
}

#[test]
fn texts_and_names(rt: HostRuntime) {
    let chars = ['a', '\u{3BB}'].as_slice();
    let text = got(&rt, Text::from_slice(rt.alloc(), chars));
    assert!(rt; text.is_chars(chars) && text.as_slice().len() == 2);
    assert_eq!(rt;
        got(&rt, text.to_utf8(rt.alloc())).as_slice(),
        b"a\xce\xbb".as_slice()
    );
    let other = Vec::from_array(rt.alloc(), ['a', 'b']).expect(&rt, "memory");
    let name = Name {
        text: got(&rt, Text::from_vec(rt.alloc(), other)),
        number: 3,
    };
    let copy = got(&rt, name.copy());
    assert!(rt; copy.is(&name) && copy == name && !copy.text.is(&text));
}

#[test]
fn spellings_of_symbols(rt: HostRuntime) {
    assert!(rt; symbol(b"lambda".as_slice()) == Some('\u{03BB}'));
    assert!(rt; symbol(b"foo".as_slice()).is_none());
    assert!(rt; spelling('\u{27F9}') == Some("==>"));
    assert!(rt; spelling('a').is_none());
}

#[test]
fn items_in_order(rt: HostRuntime) {
    let mut items = numbers(&rt, rt.alloc(), &[]);
    assert_eq!(rt; items.pop(), None);
    items = numbers(&rt, rt.alloc(), &[3, 1]);
    let copy = got(&rt, items.copy(rt.alloc()));
    got(&rt, items.append(copy));
    assert_eq!(rt; items.as_slice(), [3, 1, 3, 1].as_slice());
    assert_eq!(rt; items.pop(), Some(1));
    assert_eq!(rt; items.len(), 3);
}

#[test]
fn words_of_the_command_line(rt: HostRuntime) {
    let rows: [(&str, Result<Task, BadWords>); 10] = [
        ("check", Ok(Task::Check)),
        ("count", Ok(Task::Count)),
        ("-- check", Ok(Task::Check)),
        ("", Err(BadWords::Usage)),
        ("run", Err(BadWords::Usage)),
        ("Check", Err(BadWords::Usage)),
        ("check count", Err(BadWords::Usage)),
        ("check --unify 0", Err(BadWords::Usage)),
        ("--help", Err(BadWords::Usage)),
        ("check -h", Err(BadWords::Usage)),
    ];
    for (line, expected) in rows {
        let words = words(&rt, rt.alloc(), line);
        assert_eq!(rt;
            task_given(rt.alloc(), words.as_slice()),
            expected,
            "{line}"
        );
    }
}
