// JSON text that comes in pieces.
use fold_base::{List, MemorySource, Text, read_pieces};
use json_read::{JsonCause, JsonFault, JsonReadFault, JsonReader};
use json_tree::{Json, print};
use std::alloc::Global;
use std::test::Fail;

/// What the text is read to, in pieces of so many bytes.
fn read(alloc: Global, text: List<u8>, piece: u32) -> Result<Json, JsonReadFault> {
    let mut source = MemorySource::new(text, piece, List::new(alloc));
    let mut reader = JsonReader::new(alloc);
    let _ = read_pieces(&mut source, &mut reader);
    reader.finish()
}

/// The tree as it is printed, or the fault as it is shown.
fn shown(alloc: Global, answer: Result<Json, JsonReadFault>) -> Result<Text, Fail> {
    Ok(match answer {
        Ok(tree) => print(alloc, &tree)?,
        Err(JsonReadFault::Text(fault)) => Text::from_string(format!(in alloc; "{fault}")?),
        Err(JsonReadFault::Memory(error)) => return Err(error.into()),
    })
}

#[test]
fn reads_texts_and_names_first_faults(rt: HostRuntime) -> Result<(), Fail> {
    let alloc = rt.alloc();
    for (text, answer) in [
        (
            " { \"file_spec\" : 1.1, \"vertices_coords\": [[1.50e+02, -0]] }\n",
            "{\"file_spec\":1.1,\"vertices_coords\":[[1.50e+02,-0]]}",
        ),
        (
            "[ null,false , [ ] ,\"\\n\\u0061\", {}, true] ",
            "[null,false,[],\"\\na\",{},true]",
        ),
        ("-10", "-10"),
        ("{\"a\":1,\"a\":2}", "json fault at 9: key twice"),
        (
            "{\"a\":{\"a\":1},\"\\u0061\" : 2}",
            "json fault at 20: key twice",
        ),
        // Two keys of one hash.
        (
            "{\"8yn0iYCKYHlIj4-BwPqk\":1,\"GReLUrM4wMqfg9yzV3KQ\":2}",
            "{\"8yn0iYCKYHlIj4-BwPqk\":1,\"GReLUrM4wMqfg9yzV3KQ\":2}",
        ),
        (
            "{\"8yn0iYCKYHlIj4-BwPqk\":1,\"GReLUrM4wMqfg9yzV3KQ\":2,\"GReLUrM4wMqfg9yzV3KQ\":3}",
            "json fault at 72: key twice",
        ),
        ("{\"\\u12\"", "json fault at 6: byte"),
        ("[1,]", "json fault at 3: byte"),
        ("[true}", "json fault at 5: byte"),
        ("01", "json fault at 1: byte"),
        ("\"\\uDC00\"", "json fault at 4: byte"),
        ("[1,", "json fault at 3: ended"),
        ("nul", "json fault at 3: ended"),
        ("", "json fault at 0: ended"),
    ] {
        for piece in [1, 4096] {
            let bytes = List::from_slice(alloc, text.as_bytes())?;
            let read = shown(alloc, read(alloc, bytes, piece))?;
            assert_eq!(rt; read.as_str(), answer, "{text:?}");
        }
    }
    Ok(())
}

#[test]
fn opens_64_levels(rt: HostRuntime) -> Result<(), Fail> {
    let alloc = rt.alloc();
    let brackets = List::from_vec(vec![in alloc; b'['; 65]?);
    let read = shown(alloc, read(alloc, brackets, 4096))?;
    assert_eq!(rt; read.as_str(), "json fault at 64: deep");
    Ok(())
}

#[test]
fn reads_a_long_word(rt: HostRuntime) -> Result<(), Fail> {
    let alloc = rt.alloc();
    let mut text = vec![in alloc; b'a'; 4_194_304]?;
    text[0] = b'"';
    text[4_194_303] = b'"';
    match read(alloc, List::from_vec(text), 1) {
        Ok(Json::Word(word)) => assert_eq!(rt; word.bytes().len(), 4_194_302),
        _ => return Err("word".into()),
    }
    Ok(())
}

#[test]
fn answers_a_fault_again(rt: HostRuntime) -> Result<(), Fail> {
    let mut reader = JsonReader::new(rt.alloc());
    assert_eq!(rt; reader.feed(b"[1"), Ok(()));
    let fault = JsonReadFault::Text(JsonFault {
        place: 3,
        cause: JsonCause::Byte,
    });
    assert_eq!(rt; reader.feed(b",]"), Err(fault));
    assert_eq!(rt; reader.feed(b"2]"), Err(fault));
    assert_eq!(rt; reader.finish().err(), Some(fault));
    Ok(())
}

#[test]
fn reads_words(rt: HostRuntime) -> Result<(), Fail> {
    let alloc = rt.alloc();
    for (text, word) in [
        (r#""""#, ""),
        (r#""plain""#, "plain"),
        (r#""\"\\\/\b\f\n\r\t""#, "\"\\/\u{8}\u{c}\n\r\t"),
        (r#""\u0041\u00e9\u00E9""#, "Aéé"),
        (r#""\uD83D\uDE00""#, "😀"),
        (r#""é€😀""#, "é€😀"),
    ] {
        match read(alloc, List::from_slice(alloc, text.as_bytes())?, 1) {
            Ok(Json::Word(read)) => assert_eq!(rt; read.as_str(), word),
            _ => return Err(text.into()),
        }
    }
    Ok(())
}

#[test]
fn refuses_bytes_of_words(rt: HostRuntime) -> Result<(), Fail> {
    let alloc = rt.alloc();
    for (bytes, place) in [
        (b"\"\x1f".as_slice(), 1),
        (b"\"\xc0".as_slice(), 1),
        (b"\"\xed\xa0".as_slice(), 2),
        (b"\"\xf4\x90".as_slice(), 2),
        (b"\"\xe2\x82.".as_slice(), 3),
        (b"\"\\x".as_slice(), 2),
        (b"\"\\u00g".as_slice(), 5),
        (b"\"\\uDC00".as_slice(), 4),
        (b"\"\\uD83Dx".as_slice(), 7),
        (b"\"\\uD83D\\u0041".as_slice(), 9),
    ] {
        let fault = JsonReadFault::Text(JsonFault {
            place,
            cause: JsonCause::Byte,
        });
        let read = read(alloc, List::from_slice(alloc, bytes)?, 4096);
        assert_eq!(rt; read.err(), Some(fault), "{bytes:?}");
    }
    Ok(())
}
