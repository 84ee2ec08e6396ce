// What `show` prints, and the first fault or misfit of a text.
use crate::trial::{PRINTED, Row, SHOWN, check, faulty, faulty_fold, misfit, shown, shown_fold};
use cp_lines::CpCause;
use fold_keys::ShapeKind;
use json_read::JsonCause;
use std::test::Fail;

#[test]
fn shows_cp_text(rt: HostRuntime) -> Result<(), Fail> {
    let rows = [
        shown(b"", b""),
        shown(SHOWN, PRINTED),
        shown(b"1 0 0 1.5 0", b"1 0 0 1.5 0\n"),
    ];
    for row in rows {
        check(&rt, rt.alloc(), row)?;
    }
    Ok(())
}

#[test]
fn shows_fold_text(rt: HostRuntime) -> Result<(), Fail> {
    let text = b"{ \"file_spec\" : 1.1, \"vertices_coords\": [[1.50e+02, -0]] }";
    let printed = b"{\"file_spec\":1.1,\"vertices_coords\":[[1.50e+02,-0]]}\n";
    let rows = [
        shown_fold(text, printed),
        Row {
            words: &["show"],
            pieces: (1, 1),
            ..shown_fold(text, printed)
        },
        shown_fold(
            b"{\"file_frames\": [{\"frame_title\": \"a\"}], \"a:b\": [1.0]}",
            b"{\"file_frames\":[{\"frame_title\":\"a\"}],\"a:b\":[1.0]}\n",
        ),
        shown_fold(b" {} ", b"{}\n"),
        shown_fold(
            b"{\"file_spec\":1.2000000000000000004}",
            b"{\"file_spec\":1.2000000000000000004}\n",
        ),
        shown_fold(b"{\"file_spec\":-1e30}", b"{\"file_spec\":-1e30}\n"),
    ];
    for row in rows {
        check(&rt, rt.alloc(), row)?;
    }
    Ok(())
}

#[test]
fn names_the_first_fault_of_fold_text(rt: HostRuntime) -> Result<(), Fail> {
    use JsonCause::{Byte, Deep, Ended, KeyTwice};
    let rows: [(&[u8], u32, JsonCause, &[u8]); 13] = [
        (
            b"{\"a\":1,\"a\":2}",
            9,
            KeyTwice,
            b"fold_program: json fault at 9: key twice\n",
        ),
        (
            b"{\"a\":1,\"\\u0061\":2}",
            14,
            KeyTwice,
            b"fold_program: json fault at 14: key twice\n",
        ),
        (b"\"\xc0", 1, Byte, b"fold_program: json fault at 1: byte\n"),
        (
            b"\"\xe0\x80",
            2,
            Byte,
            b"fold_program: json fault at 2: byte\n",
        ),
        (
            b"\"\xed\xa0",
            2,
            Byte,
            b"fold_program: json fault at 2: byte\n",
        ),
        (
            b"\"\xf4\x90",
            2,
            Byte,
            b"fold_program: json fault at 2: byte\n",
        ),
        (
            b"\xef\xbb\xbf{}",
            0,
            Byte,
            b"fold_program: json fault at 0: byte\n",
        ),
        (b"[1,]", 3, Byte, b"fold_program: json fault at 3: byte\n"),
        (b"[1,", 3, Ended, b"fold_program: json fault at 3: ended\n"),
        (b"", 0, Ended, b"fold_program: json fault at 0: ended\n"),
        (b"01", 1, Byte, b"fold_program: json fault at 1: byte\n"),
        (
            b"\"\\uDC00\"",
            4,
            Byte,
            b"fold_program: json fault at 4: byte\n",
        ),
        (
            &[b'['; 65],
            64,
            Deep,
            b"fold_program: json fault at 64: deep\n",
        ),
    ];
    for (input, place, cause, notes) in rows {
        check(&rt, rt.alloc(), faulty_fold(input, place, cause, notes))?;
        let byte_by_byte = Row {
            pieces: (1, 4096),
            ..faulty_fold(input, place, cause, notes)
        };
        check(&rt, rt.alloc(), byte_by_byte)?;
    }
    Ok(())
}

#[test]
fn names_the_first_misfit(rt: HostRuntime) -> Result<(), Fail> {
    use ShapeKind::{Length, Letter, NotKind, Side, Spec};
    let rows: [(&[u8], (u32, &str, u32, ShapeKind), &[u8]); 13] = [
        (
            b"{\"file_spec\":1.2000000000000000005}",
            (0, "file_spec", 0, Spec),
            b"fold_program: frame 0 key file_spec index 0: spec\n",
        ),
        (
            b"{\"file_spec\":1e30}",
            (0, "file_spec", 0, Spec),
            b"fold_program: frame 0 key file_spec index 0: spec\n",
        ),
        (
            b"[[[[[[[[[[[[[[[[[[[[[[[[[[[[[[[[[[[[[[[[[[[[[[[[[[[[[[[[[[[[[[[[\
              ]]]]]]]]]]]]]]]]]]]]]]]]]]]]]]]]]]]]]]]]]]]]]]]]]]]]]]]]]]]]]]]]",
            (0, "", 0, NotKind),
            b"fold_program: frame 0 key  index 0: not kind\n",
        ),
        (
            b"[1]",
            (0, "", 0, NotKind),
            b"fold_program: frame 0 key  index 0: not kind\n",
        ),
        (
            b"\"file_spec\"",
            (0, "", 0, NotKind),
            b"fold_program: frame 0 key  index 0: not kind\n",
        ),
        (
            b"1.1",
            (0, "", 0, NotKind),
            b"fold_program: frame 0 key  index 0: not kind\n",
        ),
        (
            b"{\"file_spec\":1.3}",
            (0, "file_spec", 0, Spec),
            b"fold_program: frame 0 key file_spec index 0: spec\n",
        ),
        (
            b"{\"edges_assignment\":[\"B\",\"m\"]}",
            (0, "edges_assignment", 1, Letter),
            b"fold_program: frame 0 key edges_assignment index 1: letter\n",
        ),
        (
            b"{\"faceOrders\":[[0,1,2]]}",
            (0, "faceOrders", 0, Side),
            b"fold_program: frame 0 key faceOrders index 0: side\n",
        ),
        (
            b"{\"vertices_coords\":[[0]]}",
            (0, "vertices_coords", 0, Length),
            b"fold_program: frame 0 key vertices_coords index 0: length\n",
        ),
        (
            b"{\"edges_vertices\":[[0,1.0]]}",
            (0, "edges_vertices", 0, NotKind),
            b"fold_program: frame 0 key edges_vertices index 0: not kind\n",
        ),
        (
            b"{\"file_frames\":[{\"frame_title\":1}],\"file_spec\":1.2}",
            (1, "frame_title", 0, NotKind),
            b"fold_program: frame 1 key frame_title index 0: not kind\n",
        ),
        (
            b"{\"file_frames\":[{\"frame_title\":1}],\"file_spec\":2}",
            (0, "file_spec", 0, Spec),
            b"fold_program: frame 0 key file_spec index 0: spec\n",
        ),
    ];
    for (input, place, notes) in rows {
        let row = misfit(rt.alloc(), input, place, notes)?;
        assert_eq!(rt; row.status.code(), 3);
        check(&rt, rt.alloc(), row)?;
    }
    Ok(())
}

#[test]
fn names_the_first_fault(rt: HostRuntime) -> Result<(), Fail> {
    use CpCause::{Byte, Ended};
    let rows = [
        faulty(
            b"2 0 0 1\n",
            (1, 8, Byte),
            b"fold_program: cp fault at line 1 column 8: byte\n",
        ),
        faulty(
            b"2 0 0 1",
            (1, 8, Ended),
            b"fold_program: cp fault at line 1 column 8: ended\n",
        ),
        faulty(
            b"1 0 0 1 1\n5 0 0 1 1",
            (2, 1, Byte),
            b"fold_program: cp fault at line 2 column 1: byte\n",
        ),
        faulty(
            b"1 0 0 1 01",
            (1, 10, Byte),
            b"fold_program: cp fault at line 1 column 10: byte\n",
        ),
    ];
    for row in rows {
        check(&rt, rt.alloc(), row)?;
    }
    Ok(())
}
