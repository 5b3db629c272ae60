// Requests: what a line asks for.
use crate::flaw::Flaw;
use crate::text::cut;

// The files of `judge-joint` under the written coupling, in hexadecimal.
#[derive(Clone, Copy)]
pub struct Request<'a> {
    pub task: &'a [u8],
    pub plan: &'a [u8],
}

// The request of a line. Some are known by name, and not answered yet.
pub fn read(line: &[u8]) -> Result<Request<'_>, Flaw> {
    if line.is_empty() {
        return Err(Flaw::EmptyLine);
    }
    let (name, fields) = cut(line, b' ');
    match name {
        b"judge-joint" => judge_joint(fields),
        b"judge-compiled"
        | b"compile"
        | b"encode"
        | b"read-back"
        | b"alike"
        | b"run"
        | b"guided"
        | b"lockout" => Err(Flaw::NotYet),
        _ => Err(Flaw::UnknownRequest),
    }
}

fn judge_joint(fields: Option<&[u8]>) -> Result<Request<'_>, Flaw> {
    let mut fields = fields.ok_or(Flaw::Fields)?.split(|b| *b == b' ');
    match (fields.next(), fields.next(), fields.next(), fields.next()) {
        (Some(coupling), Some(task), Some(plan), None) => {
            ask_coupling(coupling)?;
            Ok(Request { task, plan })
        }
        _ => Err(Flaw::Fields),
    }
}

// Is the coupling the written one? Others are 'footprint', and both with pairs of a lockout after a '+'.
fn ask_coupling(coupling: &[u8]) -> Result<(), Flaw> {
    match cut(coupling, b'+') {
        (b"written", None) => Ok(()),
        (b"written" | b"footprint", _) => Err(Flaw::NotYet),
        _ => Err(Flaw::UnknownCoupling),
    }
}
