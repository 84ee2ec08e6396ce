// The words of the command line.
use crate::arguments::words_after_name;
use crate::trial::{SHOW_CP, check, refused, strings};
use fold_commands::{
    Command, ConvertOptions, Denominator, Format, NumberChoice, ShowOptions, Status, WordsCause,
    read_words,
};
use std::env::{Env, FillError};
use std::test::Fail;

/// What `clap` makes of lists of words by its own rules, and what comes of a value that is none of
/// its option's.
#[test]
fn reads_words(rt: HostRuntime) -> Result<(), Fail> {
    let fold = Ok(Format::Fold);
    let cp = Ok(Format::Cp);
    let refused = Err(WordsCause::Refused);
    let value = Err(WordsCause::Value);
    let rows: [(&[&str], Result<Format, WordsCause>); 48] = [
        // Of the plain form.
        (&["show"], fold),
        (&["show", "--from=fold"], fold),
        (&["show", "--from=cp"], cp),
        // Other spellings.
        (&["show", "--from", "cp"], cp),
        (&["show", "--from", "fold"], fold),
        (&["show", "--"], fold),
        (&["show", "--from=cp", "--"], cp),
        (&["show", "--from", "cp", "--"], cp),
        // Another value.
        (&["show", "--from="], value),
        (&["show", "--from", ""], value),
        (&["show", "--from==cp"], value),
        (&["show", "--from=opx"], value),
        (&["show", "--from=CP"], value),
        (&["show", "--from=cp "], value),
        (&["show", "--from= cp"], value),
        (&["show", "--from=fold,cp"], value),
        (&["show", "--from", "show"], value),
        (&["show", "--from", "help"], value),
        (&["show", "--from=--from"], value),
        (&["show", "--from=opx", "--"], value),
        // No command.
        (&[], refused),
        (&["--"], refused),
        (&[""], refused),
        (&["fly"], refused),
        (&["sho"], refused),
        (&["Show"], refused),
        (&["shows"], refused),
        (&["--show"], refused),
        (&["--from=cp", "show"], refused),
        (&["--", "show"], refused),
        (&["fold_program", "show"], refused),
        // A word that is too many, or no option.
        (&["show", "show"], refused),
        (&["show", "cp"], refused),
        (&["show", ""], refused),
        (&["show", "-"], refused),
        (&["show", "--", "--from=cp"], refused),
        (&["show", "--fro=cp"], refused),
        (&["show", "--From=cp"], refused),
        (&["show", "-from=cp"], refused),
        (&["show", "-f", "cp"], refused),
        (&["show", "--to=cp"], refused),
        // An option without its value, or twice.
        (&["show", "--from"], refused),
        (&["show", "--from", "--"], refused),
        (&["show", "--from=cp", "--from=cp"], refused),
        (&["show", "--from=opx", "--from", "cp"], refused),
        // A wish for help, and what comes first where more than one thing is wrong.
        (&["help"], refused),
        (&["show", "--help"], refused),
        (&["show", "--from=opx", "--bogus"], refused),
    ];
    for (words, expected) in rows {
        let words = strings(rt.alloc(), words)?;
        let read = read_words(rt.alloc(), &words);
        let expected = match expected {
            Ok(from) => Ok(Command::Show(ShowOptions { from })),
            Err(cause) => Err(Status::Words(cause)),
        };
        assert_eq!(rt; read, expected, "{words:?}");
    }
    Ok(())
}

#[test]
fn reads_words_of_convert(rt: HostRuntime) -> Result<(), Fail> {
    use ConvertOptions::{Drawing, Frame, Lines};
    let to = Format::Fold;
    let drawing = |number| Ok(Drawing { number });
    let thousand = Denominator::new(1000).ok_or("denominator")?;
    let million = Denominator::new(1_000_000).ok_or("denominator")?;
    let refused = Err(WordsCause::Refused);
    let value = Err(WordsCause::Value);
    let cp = Format::Cp;
    let rows: [(&[&str], Result<ConvertOptions, WordsCause>); 38] = [
        (&["convert"], Ok(Frame { frame: 0, to })),
        (&["convert", "--frame=0"], Ok(Frame { frame: 0, to })),
        (
            &["convert", "--frame=10", "--to=fold", "--from=fold"],
            Ok(Frame { frame: 10, to }),
        ),
        (
            &["convert", "--frame", "7", "--"],
            Ok(Frame { frame: 7, to }),
        ),
        (
            &["convert", "--frame=4294967295"],
            Ok(Frame {
                frame: 4_294_967_295,
                to,
            }),
        ),
        (&["convert", "--to=cp"], Ok(Frame { frame: 0, to: cp })),
        (&["convert", "--to=cp", "--from=cp"], Ok(Lines)),
        (&["convert", "--to=cp", "--from=cp", "--frame=7"], Ok(Lines)),
        (&["convert", "--to=cp", "--from=cp", "--frame=07"], value),
        (&["convert", "--from=cp"], drawing(NumberChoice::Exact)),
        (
            &["convert", "--from=cp", "--to=fold", "--number=exact"],
            drawing(NumberChoice::Exact),
        ),
        (
            &["convert", "--number=grid:1000", "--from=cp"],
            drawing(NumberChoice::Grid(thousand)),
        ),
        (
            &["convert", "--from=cp", "--number", "root2:1000000"],
            drawing(NumberChoice::RootTwo(million)),
        ),
        (
            &["convert", "--from=cp", "--frame=7", "--number=root3:1000"],
            drawing(NumberChoice::RootThree(thousand)),
        ),
        // No number is read, and so nothing comes of the choice.
        (&["convert", "--number=grid:7"], Ok(Frame { frame: 0, to })),
        (
            &["convert", "--to=cp", "--number=root2:7"],
            Ok(Frame { frame: 0, to: cp }),
        ),
        (
            &["convert", "--to=cp", "--from=cp", "--number=grid:7"],
            Ok(Lines),
        ),
        (&["convert", "--number=grid:0"], value),
        (&["convert", "--number=grid:01"], value),
        (&["convert", "--number=grid:1000001"], value),
        (&["convert", "--number=grid:4294967297"], value),
        (&["convert", "--number=grid:"], value),
        (&["convert", "--number=grid"], value),
        (&["convert", "--number=root5:1"], value),
        (&["convert", "--number=root2:+1"], value),
        (&["convert", "--number=Exact"], value),
        (&["convert", "--number=exact:1"], value),
        (&["convert", "--frame=4294967296"], value),
        (&["convert", "--frame="], value),
        (&["convert", "--frame=01"], value),
        (&["convert", "--frame=+1"], value),
        (&["convert", "--frame=1.0"], value),
        (&["convert", "--frame=fold"], value),
        (&["convert", "--to=opx", "--frame=1"], value),
        (&["convert", "--frame=1", "--frame=1"], refused),
        (&["show", "--number=exact"], refused),
        (&["convert", "7"], refused),
        (&["show", "--frame=0"], refused),
    ];
    for (words, expected) in rows {
        let words = strings(rt.alloc(), words)?;
        let read = read_words(rt.alloc(), &words);
        let expected = match expected {
            Ok(options) => Ok(Command::Convert(options)),
            Err(cause) => Err(Status::Words(cause)),
        };
        assert_eq!(rt; read, expected, "{words:?}");
    }
    Ok(())
}

#[test]
fn refuses_other_words(rt: HostRuntime) -> Result<(), Fail> {
    use WordsCause::{Refused, Value};
    let rows: [(&[&str], WordsCause); 9] = [
        (&[], Refused),
        (&["fly"], Refused),
        (&["judge", "--flat=drop"], Refused),
        (&["drill", "--number=exact"], Refused),
        (&["show", "--from=opx"], Value),
        (&["judge", "--frame=01"], Value),
        (&["drill", "--count=0"], Value),
        (&["drill", "--count=501"], Value),
        (&["drill", "--count=05"], Value),
    ];
    for (words, cause) in rows {
        let notes: &[u8] = match cause {
            Refused => b"fold_program: words refused\n",
            Value => b"fold_program: words value\n",
        };
        check(&rt, rt.alloc(), refused(words, cause, notes))?;
    }
    Ok(())
}

/// A runtime with words alone, the first of which isn't UTF-8.
#[derive(Clone, Copy)]
struct Started<'a> {
    words: &'a [&'a [u8]],
}

impl Env for Started<'_> {
    fn arg(&self, i: usize, buf: &mut [u8]) -> Result<usize, FillError> {
        match self.words.get(i) {
            Some(word) if word.len() <= buf.len() => {
                for (room, byte) in buf.iter_mut().zip(*word) {
                    *room = *byte;
                }
                Ok(word.len())
            }
            Some(_) => Err(FillError::TooLong),
            None => Err(FillError::NotPresent),
        }
    }

    fn var(&self, _name: &str, _buf: &mut [u8]) -> Result<usize, FillError> {
        Err(FillError::NotPresent)
    }

    fn var_at(&self, _i: usize, _buf: &mut [u8]) -> Result<usize, FillError> {
        Err(FillError::NotPresent)
    }
}

#[test]
fn takes_any_name_of_the_program(rt: HostRuntime) -> Result<(), Fail> {
    let started = Started {
        words: &[b"\xff/fold_program", b"show", b"--from=cp"],
    };
    let words: Vec<String> = words_after_name(&started, rt.alloc())?.collect(rt.alloc())?;
    assert_eq!(rt; words, strings(rt.alloc(), SHOW_CP)?);
    let nameless = Started {
        words: &[b"", b"\xff"],
    };
    assert!(rt; words_after_name(&nameless, rt.alloc()).is_err());
    Ok(())
}
