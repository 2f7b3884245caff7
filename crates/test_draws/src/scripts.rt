//! Scripts that are drawn from numbers: three containers and two loci, which use all instructions.
ghost use Rattle.std.specs.Prelude.{◌<◌};

use rand_core::utils::NextWord;
use rand_pcg::Lcg64Xsh32;
use std::alloc::{AllocError, Global};

// How instructions are spelled: X stands for a register, V for a small number, P for a place, W for rights to words.
const FORMS: &[&str] = &[
    "set rX V",
    "set rX V",
    "set rX V",
    "copy rX rX",
    "add rX rX",
    "sub rX rX",
    "jz rX @P",
    "load rX rX",
    "load rX rX",
    "store rX rX",
    "store rX rX",
    "store rX rX",
    "invoke rX",
    "leave rX",
    "return",
    "map rX rX rX rX rX W",
    "unmap rX rX",
    "lmap rX rX rX rX W",
    "lunmap rX",
    "take rX rX rX",
    "give rX rX rX rwm",
    "drop rX",
    "make rX rX rX @P",
    "spawn rX @P",
    "go rX",
    "snap rX",
    "stabilise rX",
    "print rX",
];

const WORD_RIGHTS: &[&str] = &["r", "w", "rw"];

const CAP_RIGHTS: &[&str] = &["rwimcs", "rwimcsk", "rwm", "-"];

// How many instructions are drawn, behind those that set the registers.
const DRAWN: u32 = 20;

// The next word of the generator, modulo a number.
fn draw(words: &mut Lcg64Xsh32, below: u32) -> u32
    requires { 0 < below }
    ensures { result < below }
{
    words.next_word() % below
}

fn push_number(alloc: Global, text: &mut String, number: u32) -> Result<(), AllocError> {
    text.push_str(format!(in alloc; "{number}")?.as_str())
}

// An instruction of this form.
fn push_instruction(
    alloc: Global,
    words: &mut Lcg64Xsh32,
    form: &str,
    code: &mut String,
) -> Result<(), AllocError> {
    for c in form.chars() {
        match c {
            'X' => push_number(alloc, code, draw(words, 7))?,
            'V' => push_number(alloc, code, draw(words, 6))?,
            'P' => push_number(alloc, code, draw(words, 28))?,
            'W' => code.push_str(WORD_RIGHTS[draw(words, 3) as usize])?,
            _ => code.push(c)?,
        }
    }
    Ok(())
}

// A program: registers are set, and then the drawn instructions go round.
fn draw_program(alloc: Global, words: &mut Lcg64Xsh32) -> Result<String, AllocError> {
    let mut code = String::new(alloc);
    for register in 0..7 {
        let value = draw(words, 6);
        let line = format!(in alloc; "'set r{register} {value}', ")?;
        code.push_str(line.as_str())?;
    }
    for _ in 0..DRAWN {
        let form = FORMS[draw(words, 28) as usize];
        code.push_str("'")?;
        push_instruction(alloc, words, form, &mut code)?;
        code.push_str("', ")?;
    }
    code.push_str("'jump @7'")?;
    Ok(code)
}

// A region onto an earlier container, or none.
fn draw_region(alloc: Global, words: &mut Lcg64Xsh32, number: u32) -> Result<String, AllocError> {
    if number == 0 || draw(words, 3) == 0 {
        return Ok(String::new(alloc));
    }
    let target = draw(words, number);
    let rights = WORD_RIGHTS[draw(words, 3) as usize];
    format!(in alloc; "'0 c{target} 0 1 {rights}'")
}

fn draw_container(
    alloc: Global,
    words: &mut Lcg64Xsh32,
    number: u32,
) -> Result<String, AllocError> {
    let pages = 1 + draw(words, 3);
    let tag = draw(words, 100);
    let every = draw(words, 4);
    let region = draw_region(alloc, words, number)?;
    format!(in alloc;
        "[[container]]
name = 'c{number}'
pages = {pages}
tag = {tag}
every = {every}
entry = 7
program = 'p{number}'
regions = [{region}]
caps = ['c{number} rwm']
"
    )
}

fn draw_locus(alloc: Global, words: &mut Lcg64Xsh32, number: u32) -> Result<String, AllocError> {
    let host = draw(words, 3);
    let every = draw(words, 4);
    let first = CAP_RIGHTS[draw(words, 4) as usize];
    let second = CAP_RIGHTS[draw(words, 4) as usize];
    let third = CAP_RIGHTS[draw(words, 4) as usize];
    format!(in alloc;
        "[[locus]]
name = 'l{number}'
host = 'c{host}'
every = {every}
caps = ['c0 {first}', 'c1 {second}', 'c2 {third}', 'atlas st', 'l{number} sk', 'l0 sk']
"
    )
}

/// The script of a number.
pub fn drawn(alloc: Global, number: u64) -> Result<String, AllocError> {
    let mut words = Lcg64Xsh32::new(number, 7);
    let mut script = String::from_str(alloc, "steps = 30\norder = ['l1', 'l0', 'l1']\n")?;
    for number in 0..3 {
        let code = draw_program(alloc, &mut words)?;
        let program = format!(in alloc; "program.p{number} = [{code}]\n")?;
        script.push_str(program.as_str())?;
    }
    for number in 0..3 {
        script.push_str(draw_container(alloc, &mut words, number)?.as_str())?;
    }
    for number in 0..2 {
        script.push_str(draw_locus(alloc, &mut words, number)?.as_str())?;
    }
    Ok(script)
}
