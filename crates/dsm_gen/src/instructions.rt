ghost use Rattle.std.specs.Prelude.{◌≡◌, ◌<◌};
ghost use Rattle.dsm_isa.specs.declared.instr.Instr.TheVariants.{Li, Mov, Me, Procs, Add, Mul, Rem, Xor, Addi, Subi, Ld, St, Bne, Bge, Out};

use dsm_isa::instr::Instr;
use dsm_isa::reg::Reg;

// Instructions by the numbers of their registers.

/// Register `k`.
fn register(k: u32) -> Reg
    requires { k < 16 }
    ensures { result ≡ k }
{
    match Reg::new(k) {
        Some(register) => register,
        None => unreachable!(),
    }
}

pub(crate) fn li(d: u32, k: u64) -> Instr
    requires { d < 16 }
    ensures { result ≡ Li d k }
{
    Instr::Li { d: register(d), k }
}

pub(crate) fn mov(d: u32, a: u32) -> Instr
    requires d { d < 16 }
    requires a { a < 16 }
    ensures { result ≡ Mov d a }
{
    Instr::Mov {
        d: register(d),
        a: register(a),
    }
}

pub(crate) fn me(d: u32) -> Instr
    requires { d < 16 }
    ensures { result ≡ Me d }
{
    Instr::Me { d: register(d) }
}

pub(crate) fn procs(d: u32) -> Instr
    requires { d < 16 }
    ensures { result ≡ Procs d }
{
    Instr::Procs { d: register(d) }
}

pub(crate) fn add(d: u32, a: u32, b: u32) -> Instr
    requires d { d < 16 }
    requires a { a < 16 }
    requires b { b < 16 }
    ensures { result ≡ Add d a b }
{
    Instr::Add {
        d: register(d),
        a: register(a),
        b: register(b),
    }
}

pub(crate) fn mul(d: u32, a: u32, b: u32) -> Instr
    requires d { d < 16 }
    requires a { a < 16 }
    requires b { b < 16 }
    ensures { result ≡ Mul d a b }
{
    Instr::Mul {
        d: register(d),
        a: register(a),
        b: register(b),
    }
}

pub(crate) fn rem(d: u32, a: u32, b: u32) -> Instr
    requires d { d < 16 }
    requires a { a < 16 }
    requires b { b < 16 }
    ensures { result ≡ Rem d a b }
{
    Instr::Rem {
        d: register(d),
        a: register(a),
        b: register(b),
    }
}

pub(crate) fn xor(d: u32, a: u32, b: u32) -> Instr
    requires d { d < 16 }
    requires a { a < 16 }
    requires b { b < 16 }
    ensures { result ≡ Xor d a b }
{
    Instr::Xor {
        d: register(d),
        a: register(a),
        b: register(b),
    }
}

pub(crate) fn addi(d: u32, a: u32, k: u64) -> Instr
    requires d { d < 16 }
    requires a { a < 16 }
    ensures { result ≡ Addi d a k }
{
    Instr::Addi {
        d: register(d),
        a: register(a),
        k,
    }
}

pub(crate) fn subi(d: u32, a: u32, k: u64) -> Instr
    requires d { d < 16 }
    requires a { a < 16 }
    ensures { result ≡ Subi d a k }
{
    Instr::Subi {
        d: register(d),
        a: register(a),
        k,
    }
}

pub(crate) fn ld(d: u32, a: u32, k: u64) -> Instr
    requires d { d < 16 }
    requires a { a < 16 }
    ensures { result ≡ Ld d a k }
{
    Instr::Ld {
        d: register(d),
        a: register(a),
        k,
    }
}

pub(crate) fn st(s: u32, a: u32, k: u64) -> Instr
    requires s { s < 16 }
    requires a { a < 16 }
    ensures { result ≡ St s a k }
{
    Instr::St {
        s: register(s),
        a: register(a),
        k,
    }
}

pub(crate) fn bne(a: u32, b: u32, to: u32) -> Instr
    requires a { a < 16 }
    requires b { b < 16 }
    ensures { result ≡ Bne a b to }
{
    Instr::Bne {
        a: register(a),
        b: register(b),
        to,
    }
}

pub(crate) fn bge(a: u32, b: u32, to: u32) -> Instr
    requires a { a < 16 }
    requires b { b < 16 }
    ensures { result ≡ Bge a b to }
{
    Instr::Bge {
        a: register(a),
        b: register(b),
        to,
    }
}

pub(crate) fn out(s: u32) -> Instr
    requires { s < 16 }
    ensures { result ≡ Out s }
{
    Instr::Out { s: register(s) }
}
