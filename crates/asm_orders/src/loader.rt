//! The loader: instructions by which the boot hart stores a program's data before it begins (profile).
use crate::reading::{Unloaded, unread};
use amo::AmoName;
use asm_program::{Assembly, CodeLine, Datum};
use board_core::Config;
use rv64_instructions::{Instruction, Register};
use std::alloc::{AllocError, Global};
use sv39::{PAGE_BYTES, RAM_START};

/// What an instruction of the loader has for its place in the text.
pub(crate) const IN_LOADER: usize = usize::MAX;

/// The board of the program of this name: if it has data other than 0, the boot hart begins with a loader, which is added to the instructions.
/// That begins at the last even address of the RAM, and goes on at the boot address.
///
/// # Errors
///
/// Data lie outside the RAM, an instruction stands where the loader's may, or memory was refused.
pub(crate) fn with_loader(
    alloc: Global,
    name: &str,
    program: &mut Assembly<'_>,
    config: Config,
) -> Result<Config, Unloaded> {
    if !config.is_good() || !program.data.iter().any(is_stored) {
        return Ok(config);
    }
    if program.code.iter().any(|line| line.at % 4 == 2) {
        return Err(unread(
            alloc,
            name,
            "data need instructions at multiples of 4, between which their loader stands",
        )?);
    }
    let end = RAM_START.wrapping_add(PAGE_BYTES.wrapping_mul(config.pages));
    let first = end.wrapping_sub(2);
    let loader = loader_of(alloc, name, &program.data, first, config.boot_addr)?;
    program.code.extend_from_slice(&loader)?;
    Ok(Config {
        boot_addr: first,
        ..config
    })
}

/// The loader of these data, which begins two bytes before the end of the RAM.
fn loader_of(
    alloc: Global,
    name: &str,
    data: &[Datum],
    first: u64,
    boot_addr: u64,
) -> Result<Vec<CodeLine>, Unloaded> {
    let mut code = Vec::new(alloc);
    let mut next = first;
    for datum in data {
        if !is_stored(datum) {
            continue;
        }
        if !is_in_ram(datum, first.wrapping_add(2)) {
            let at = datum.at;
            return Err(Unloaded::File(format!(in alloc;
                "{name}: data at {at:#x} lie outside the RAM"
            )?));
        }
        next = put_datum(&mut code, next, datum)?;
    }
    put_leave(&mut code, next, boot_addr)?;
    Ok(code)
}

/// Whether a datum isn't 0, which all of the RAM is before the boot hart begins.
fn is_stored(datum: &Datum) -> bool {
    datum.size != 0 && datum.value != 0
}

/// Whether all bytes of a datum lie in the RAM that ends there.
fn is_in_ram(datum: &Datum, end: u64) -> bool {
    datum.at >= RAM_START && datum.at <= end && end.wrapping_sub(datum.at) >= datum.size
}

/// Adds the instructions that store a datum, from an address on; returns the next one. What isn't naturally aligned is stored by bytes.
fn put_datum(code: &mut Vec<CodeLine>, next: u64, datum: &Datum) -> Result<u64, AllocError> {
    let is_aligned = match datum.size {
        8 => datum.at % 8 == 0,
        4 => datum.at % 4 == 0,
        2 => datum.at % 2 == 0,
        _ => false,
    };
    if is_aligned {
        return put_store(code, next, datum.size, datum.at, datum.value);
    }
    let mut next = next;
    let mut rest = datum.value;
    for i in 0..datum.size {
        next = put_store(code, next, 1, datum.at.wrapping_add(i), rest % 256)?;
        rest /= 256;
    }
    Ok(next)
}

/// Adds the instructions that store a value of 1, 2, 4 or 8 bytes.
fn put_store(
    code: &mut Vec<CodeLine>,
    next: u64,
    size: u64,
    at: u64,
    value: u64,
) -> Result<u64, AllocError> {
    let next = put_value(code, next, Register::ra(), at)?;
    let next = put_value(code, next, Register::t1(), value)?;
    put_line(code, next, store_of(size))
}

/// The store of so many bytes of t1 at the address in ra.
fn store_of(size: u64) -> Instruction {
    match size {
        8 => Instruction::StoreDouble {
            rs2: Register::t1(),
            rs1: Register::ra(),
            offset: 0,
        },
        4 => narrow_store(AmoName::Store4),
        2 => narrow_store(AmoName::Store2),
        _ => narrow_store(AmoName::Store1),
    }
}

fn narrow_store(name: AmoName) -> Instruction {
    Instruction::Amo {
        name,
        rd: Register::zero(),
        rs2: Register::t1(),
        rs1: Register::ra(),
        offset: 0,
    }
}

/// Adds the loader's end: its registers are 0 again, and it goes on at the boot address.
fn put_leave(code: &mut Vec<CodeLine>, next: u64, boot_addr: u64) -> Result<(), AllocError> {
    let next = put_value(code, next, Register::ra(), 0)?;
    let next = put_value(code, next, Register::t1(), 0)?;
    put_line(
        code,
        next,
        Instruction::Jump {
            rd: Register::zero(),
            to: boot_addr,
        },
    )?;
    Ok(())
}

/// Adds an instruction that puts a value into a register.
fn put_value(
    code: &mut Vec<CodeLine>,
    next: u64,
    rd: Register,
    value: u64,
) -> Result<u64, AllocError> {
    put_line(code, next, Instruction::Value { rd, value })
}

/// Adds an instruction, and returns the address behind it.
fn put_line(
    code: &mut Vec<CodeLine>,
    at: u64,
    instruction: Instruction,
) -> Result<u64, AllocError> {
    code.push(CodeLine {
        at,
        instruction,
        left: IN_LOADER,
    })?;
    Ok(at.wrapping_add(4))
}
