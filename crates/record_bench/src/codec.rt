// Signatures that are read and written.
use crate::spent;
use anyhow::{Result, bail};
use sig_gen::{decode, encode};
use std::alloc::Global;
use std::time::CpuClock;
use store_model::{SigRecord, SigText};
use tree_model::Hash;

/// The bytes of a key with so many lines of 78 bytes.
fn key_of(alloc: Global, lines: u32) -> Result<Vec<u8>> {
    let mut bytes = Vec::new(alloc);
    bytes.extend_from_slice(format!(in alloc; "{lines};")?.as_bytes())?;
    for line in 0..lines {
        let text = format!(in alloc;
            "8:N{line:07},+40:0123456789012345678901234567890123456789,0;1;6:export,1:1,"
        )?;
        bytes.extend_from_slice(text.as_bytes())?;
    }
    Ok(bytes)
}

/// The whole text of a signature with this key.
fn text_of(alloc: Global, key: &[u8]) -> Result<SigText> {
    let Ok(name) = Hash::of(key).text(alloc) else {
        bail!("out of memory");
    };
    let short = format!(in alloc; "6:bbsig2,1:p,1:t,64:{},0;0;", name.as_str())?;
    let mut bytes = Vec::new(alloc);
    bytes.extend_from_slice(short.as_bytes())?;
    let Ok(text) = SigText::new(bytes, key) else {
        bail!("out of memory");
    };
    Ok(text)
}

/// How many bytes a text has.
fn size(text: &SigText) -> usize {
    text.short().len().saturating_add(text.key().len())
}

fn read(rt: &HostRuntime, text: &SigText, timed: bool) -> Result<SigRecord> {
    let start = rt.process_cpu_time()?;
    let Ok(sig) = decode(rt.alloc(), text) else {
        bail!("not read");
    };
    let took = spent(rt, start)?;
    println!(rt; "read: {} bytes, {} lines", size(text), sig.key.lines.len())?;
    if timed {
        println!(rt; "reading: {took} us")?;
    }
    Ok(sig)
}

fn write(rt: &HostRuntime, sig: &SigRecord, timed: bool) -> Result<()> {
    let start = rt.process_cpu_time()?;
    let Ok(text) = encode(rt.alloc(), sig) else {
        bail!("not written");
    };
    let took = spent(rt, start)?;
    println!(rt; "written: {} bytes", size(&text))?;
    if timed {
        println!(rt; "writing: {took} us")?;
    }
    Ok(())
}

/// A signature of so many key lines is read and written.
pub fn measure(rt: &HostRuntime, lines: u32, timed: bool) -> Result<()> {
    let text = text_of(rt.alloc(), &key_of(rt.alloc(), lines)?)?;
    let sig = read(rt, &text, timed)?;
    write(rt, &sig, timed)
}
