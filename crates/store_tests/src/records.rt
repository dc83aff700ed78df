// Signatures, keys and records as bytes.
use crate::samples::{HELLO, text_of};
use sig_gen::{
    SigFault, decode, decode_key, decode_short_stored, decode_stored, encode, encode_key,
    encode_manifest, encode_stored,
};
use std::alloc::Global;
use std::test::Fail;
use store_model::SigText;

/// The manifest of what the worked task writes.
const MANIFEST: &[u8] =
    b"1;9:hello.txt,f6;64:5891b5b522d5df086d0ff0b110fbd9d21bb4fc7163af34d08286a2e846f6be03,";

/// The record of its signature and that, under its own name.
pub const RECORD: &[u8] =
    b"6:bbrec2,100:6:bbsig2,5:hello,8:do_build,64:43e50bb16432119eca694814ac2085a3cc481e21c1568579ed352fb3bb91c2cb,0;0;,1;9:hello.txt,f6;64:5891b5b522d5df086d0ff0b110fbd9d21bb4fc7163af34d08286a2e846f6be03,64:617b1a5b401514b40f0e8ef3e84800e505c347f13fc45cdb203c8b4d93856c5e,";

/// Whether a short text and a key are refused as no signature.
fn is_refused(alloc: Global, short: &[u8], key: &[u8]) -> Result<bool, Fail> {
    let mut bytes = Vec::new(alloc);
    bytes.extend_from_slice(short)?;
    let text = SigText::new(bytes, key)?;
    Ok(matches!(decode(alloc, &text), Err(SigFault::BadRecord)))
}

/// Whether the bytes are refused as no stored record, with the worked key and without any.
fn is_refused_as_stored(alloc: Global, bytes: &[u8]) -> bool {
    matches!(
        decode_stored(alloc, bytes, HELLO.1),
        Err(SigFault::BadRecord)
    ) && matches!(decode_short_stored(alloc, bytes), Err(SigFault::BadRecord))
}

/// The worked signature, read and written.
#[test]
fn one_signature(rt: HostRuntime) -> Result<(), Fail> {
    assert_eq!(rt; HELLO.0.len(), 100);
    assert_eq!(rt; HELLO.1.len(), 60);
    let text = text_of(rt.alloc(), HELLO)?;
    let sig = decode(rt.alloc(), &text).ok().ok_or("a signature")?;
    let again = encode(rt.alloc(), &sig).ok().ok_or("memory")?;
    assert!(rt; again.is_same(&text));
    Ok(())
}

/// The worked key, read and written.
#[test]
fn one_key(rt: HostRuntime) -> Result<(), Fail> {
    let key = decode_key(rt.alloc(), HELLO.1).ok().ok_or("a key")?;
    let again = encode_key(rt.alloc(), &key).ok().ok_or("memory")?;
    assert!(rt; again.as_slice() == HELLO.1);
    Ok(())
}

/// The worked record, read and written; with another key it is refused.
#[test]
fn one_record(rt: HostRuntime) -> Result<(), Fail> {
    assert_eq!(rt; RECORD.len(), 267);
    let stored = decode_stored(rt.alloc(), RECORD, HELLO.1)
        .ok()
        .ok_or("a record")?;
    let bytes = encode_stored(rt.alloc(), &stored).ok().ok_or("memory")?;
    assert!(rt; bytes.as_slice() == RECORD);
    assert!(rt; decode_stored(rt.alloc(), RECORD, b"0;").is_err());
    let manifest = encode_manifest(rt.alloc(), &stored.manifest)
        .ok()
        .ok_or("memory")?;
    assert_eq!(rt; MANIFEST.len(), 85);
    assert!(rt; manifest.as_slice() == MANIFEST);
    Ok(())
}

#[test]
fn fronts_of_a_record(rt: HostRuntime) {
    for end in 0..RECORD.len() {
        assert!(rt; is_refused_as_stored(rt.alloc(), &RECORD[..end]));
    }
}

/// No text in UTF-8 has the byte 255, and no number, letter or separator is it.
#[test]
fn changed_bytes_of_a_record(rt: HostRuntime) -> Result<(), Fail> {
    for place in 0..RECORD.len() {
        let mut bytes = Vec::new(rt.alloc());
        bytes.extend_from_slice(&RECORD[..place])?;
        bytes.push(255)?;
        bytes.extend_from_slice(&RECORD[place + 1..])?;
        assert!(rt; is_refused_as_stored(rt.alloc(), &bytes));
    }
    Ok(())
}

/// The digest of the key of no lines.
const EMPTY: &str = "64:f1ab6b1fa3e07be02cdd3816ad1c1c0f6a540c262e4c805f208a901850e5dde0,";

/// A short text, with the name of the key of no lines where it has a star.
fn with_name(alloc: Global, text: &str) -> Result<String, Fail> {
    match text.split_once('*') {
        Some((front, rest)) => Ok(format!(in alloc; "{front}{EMPTY}{rest}")?),
        None => Ok(String::from_str(alloc, text)?),
    }
}

#[test]
fn no_signatures(rt: HostRuntime) -> Result<(), Fail> {
    let rows = [
        // a zero in front of a length and of a number
        "6:bbsig2,01:p,1:t,*0;0;",
        "6:bbsig2,1:p,1:t,*00;0;",
        // no digits
        "6:bbsig2,:,1:t,*0;0;",
        // a byte behind the end
        "6:bbsig2,1:p,1:t,*0;0;,",
        // another word
        "6:bbsig1,1:p,1:t,*0;0;",
        // lengths beyond what is left, and beyond all
        "6:bbsig2,9:p,1:t,*0;0;",
        "6:bbsig2,99999999999999999999:p,1:t,*0;0;",
        "6:bbsig2,1:p,1:t,*18446744073709551615;0;",
        // a capital digit of a digest, and the name of another key
        "6:bbsig2,1:p,1:t,*1;1:f,64:5891B5b522d5df086d0ff0b110fbd9d21bb4fc7163af34d08286a2e846f6be03,0;",
        "6:bbsig2,1:p,1:t,64:d6c06e8e6df7906ba96e515dfb3beb4b1faead98e8525279bb761d1b516bb233,0;0;",
    ];
    for text in rows {
        let short = with_name(rt.alloc(), text)?;
        assert!(rt; is_refused(rt.alloc(), short.as_bytes(), b"0;")?);
    }
    Ok(())
}

#[test]
fn no_keys(rt: HostRuntime) {
    let rows: [&[u8]; 6] = [
        // lines that don't ascend, or stand twice
        b"2;1:b,-1:a,-",
        b"2;1:a,-1:a,-",
        // a value that is neither there nor absent
        b"1;1:a,?",
        // a byte behind the end, a line too few, and nothing
        b"0;,",
        b"2;1:a,-",
        b"",
    ];
    for bytes in rows {
        assert!(rt; matches!(decode_key(rt.alloc(), bytes), Err(SigFault::BadRecord)));
    }
}

/// A record whose one manifest line has this path, in nine bytes.
#[test]
fn paths_of_no_tree(rt: HostRuntime) -> Result<(), Fail> {
    for path in [b"../lo.txt", b"/ello.txt", b"hello.tx/", b"he//o.txt"] {
        let mut bytes = Vec::new(rt.alloc());
        bytes.extend_from_slice(&RECORD[..118])?;
        bytes.extend_from_slice(path)?;
        bytes.extend_from_slice(&RECORD[127..])?;
        assert_eq!(rt; bytes.len(), 267);
        assert!(rt; is_refused_as_stored(rt.alloc(), &bytes));
    }
    Ok(())
}
