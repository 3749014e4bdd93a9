// The scope's examples at the edges, run: a line each with what the code shows, in the order of the
// table in specs/, proved of the definitions; then the lengths of memory. A flag or a
// decision is shown as 0 or 1; an ALU output as its value in hexadecimal and then v, n, c, z.
#![tactic(auto)]

use alu::{AluOutput, Flags, code};
use status::psw::{Change, Psw, PswLines};
use std::io;
use std::io::Print;

fn main(rt: HostRuntime) -> io::Result<()> {
    jumps(&rt)?;
    writes(&rt)?;
    word_in_user_mode(&rt)?;
    sums(&rt)?;
    record_sum(&rt)?;
    lengths(&rt)
}

// A PSW in user mode with interrupts off.
fn user(v: bool, n: bool, c: bool, z: bool) -> Psw {
    Psw {
        sm: false,
        ie: false,
        v,
        n,
        c,
        z,
    }
}

fn jumps(out: &impl Print) -> io::Result<()> {
    let clear = user(false, false, false, false);
    let carry = user(false, false, true, false);
    let rows = [
        ("code 0 with c", 0, carry),
        ("code 1 with c", 1, carry),
        ("code 8 with c", 8, carry),
        ("code 8 with c z", 8, user(false, false, true, true)),
        ("code 10 with n v", 10, user(true, true, false, false)),
        ("code 12 with all clear", 12, clear),
        ("field 15 with all clear", 15, clear),
        ("field 16 with all clear", 16, clear),
    ];
    for (name, field, psw) in rows {
        let taken = u32::from(status::jump::decide(field, psw));
        println!(out; "{name}: {taken}")?;
    }
    Ok(())
}

fn writes(out: &impl Print) -> io::Result<()> {
    for (mode, sm, n) in [
        ("user", false, 7),
        ("user", false, 8),
        ("supervisor", true, 0),
    ] {
        let registers = words::registers::update(sm, n, [0; 32], 5);
        let after = registers[n as usize];
        println!(out; "register {n} after writing 5 in {mode} mode: {after}")?;
    }
    Ok(())
}

fn flags(all: bool) -> Flags {
    Flags {
        v: all,
        n: all,
        c: all,
        z: all,
    }
}

fn word_in_user_mode(out: &impl Print) -> io::Result<()> {
    let set = Change {
        set: true,
        clear: false,
    };
    let lines = PswLines {
        set: true,
        clock: false,
        sm: set,
        ie: set,
        load: flags(true),
        flags: flags(false),
    };
    let after = u32::from(status::psw::next(lines, 48, user(true, true, true, true)));
    println!(out; "psw 15 after writing 48 in user mode, clock low: {after}")
}

fn sums(out: &impl Print) -> io::Result<()> {
    let rows = [
        (
            "ffffffff + 1",
            alu::compute(code::ADD, 0xffff_ffff, 1, false),
        ),
        (
            "7fffffff + 1",
            alu::compute(code::ADD, 0x7fff_ffff, 1, false),
        ),
        ("0 - 1", alu::compute(code::SUBTRACT, 0, 1, false)),
    ];
    for (name, AluOutput { value, flags }) in rows {
        let [v, n, c, z] = [flags.v, flags.n, flags.c, flags.z].map(u32::from);
        println!(out; "{name}: {value:08x} {v} {n} {c} {z}")?;
    }
    Ok(())
}

// The sum of a record modulo 256.
fn record_sum(out: &impl Print) -> io::Result<()> {
    let line = ":0400000000000010EC";
    match image_records::record(line.as_bytes()) {
        Some(said) => {
            let sum = said.sum;
            println!(out; "record {line}: {sum}")
        }
        None => println!(out; "record {line}: no record"),
    }
}

fn lengths(out: &impl Print) -> io::Result<()> {
    for words in [8, 16, 24, 16_384, 32_768] {
        let legal = u32::from(words::lengths::legal(words));
        println!(out; "a memory of {words} words: {legal}")?;
    }
    Ok(())
}
