// The nodes of a program's code in their order, each with what it comes from. The core process is never looked at: each form
// of the text gives its nodes by the translation, in preorder.

use crate::origin::{Form, NodeKind, Origin};
use crate::simple::{is_simple, is_simple_chan};
use pict_syntax::{
    Abs, Chan, Dec, Definition, FieldVals, Name, Proc, Span, Val, chan_span, proc_span, val_span,
};
use std::alloc::{AllocError, Global};

type Made = Result<(), AllocError>;

fn put(out: &mut Vec<Origin>, kind: NodeKind, form: Form, span: Span) -> Made {
    out.push(Origin {
        kind,
        form,
        name: None,
        span,
    })?;
    Ok(())
}

fn put_named(out: &mut Vec<Origin>, form: Form, name: Name, span: Span) -> Made {
    out.push(Origin {
        kind: NodeKind::New,
        form,
        name: Some(name),
        span,
    })?;
    Ok(())
}

// The channel of an answer that is waited for, and who waits.
fn awaited(out: &mut Vec<Origin>, span: Span) -> Made {
    put(out, NodeKind::New, Form::Answer, span)?;
    put(out, NodeKind::Par, Form::Answer, span)?;
    put(out, NodeKind::Serve, Form::Answer, span)
}

// The same of a value, if it is waited for.
fn taken(out: &mut Vec<Origin>, v: &Val) -> Made {
    if is_simple(v) {
        return Ok(());
    }
    awaited(out, val_span(v))
}

// What sends the answer, if it is waited for.
#[cycle(places)]
fn answered(out: &mut Vec<Origin>, v: &Val) -> Made {
    if is_simple(v) {
        return Ok(());
    }
    sending(out, v)
}

/// Where each node of the declarations' code comes from, in the order of their numbers. The only error is want of memory.
pub fn places(alloc: Global, decs: &[Dec]) -> Result<Vec<Origin>, AllocError> {
    let mut out = Vec::new(alloc);
    declared(&mut out, decs)?;
    let end = Span {
        text: 0,
        start: 0,
        end: 0,
    };
    put(&mut out, NodeKind::Zero, Form::End, end)?;
    behind(&mut out, decs)?;
    Ok(out)
}

// What declarations give before what stands behind them.
#[cycle(places)]
fn declared(out: &mut Vec<Origin>, ds: &[Dec]) -> Made {
    for d in ds {
        declaration(out, d)?;
    }
    Ok(())
}

#[cycle(places)]
fn declaration(out: &mut Vec<Origin>, d: &Dec) -> Made {
    match d {
        Dec::New(_, id, _) => put_named(out, Form::New, id.name, id.span),
        Dec::Run(span, p) => {
            put(out, NodeKind::Par, Form::Run, *span)?;
            process(out, p)
        }
        Dec::Let(_, _, v) => awaited(out, val_span(v)),
        Dec::Await(_, v) => awaited(out, val_span(v)),
        Dec::Def(_, ds) => definitions(out, ds),
        Dec::Alias(..) => Ok(()),
        Dec::Operator(..) => Ok(()),
    }
}

#[cycle(places)]
fn definitions(out: &mut Vec<Origin>, ds: &[Definition]) -> Made {
    for d in ds {
        put_named(out, Form::Def, d.id.name, d.id.span)?;
    }
    for d in ds {
        put(out, NodeKind::Par, Form::Def, d.id.span)?;
        abstraction(out, &d.abs, NodeKind::Serve, Form::Def, d.id.span)?;
    }
    Ok(())
}

// What declarations give behind what stands behind them: the values that are waited for, the last first.
#[cycle(places)]
fn behind(out: &mut Vec<Origin>, ds: &[Dec]) -> Made {
    for d in ds.iter().rev() {
        match d {
            Dec::Let(_, _, v) => sending(out, v)?,
            Dec::Await(_, v) => sending(out, v)?,
            _ => {}
        }
    }
    Ok(())
}

#[cycle(places)]
fn abstraction(out: &mut Vec<Origin>, a: &Abs, kind: NodeKind, form: Form, span: Span) -> Made {
    put(out, kind, form, span)?;
    match a {
        Abs::Process(_, _, p) => process(out, p),
        Abs::Function(_, _, _, v) => sending(out, v),
    }
}

// What sends a value.
#[cycle(places)]
fn sending(out: &mut Vec<Origin>, v: &Val) -> Made {
    match v {
        Val::OfChan(c) => sending_chan(out, c),
        Val::Fields(span, fields) => {
            if is_simple(v) {
                return put(out, NodeKind::Out, Form::Value, *span);
            }
            fields_taken(out, fields)?;
            put(out, NodeKind::Out, Form::Record, *span)?;
            fields_answered(out, fields)
        }
        Val::If(span, test, yes, no) => {
            taken(out, test)?;
            put(out, NodeKind::If, Form::Conditional, *span)?;
            sending(out, yes)?;
            sending(out, no)?;
            answered(out, test)
        }
        Val::Lambda(span, abs) => {
            put(out, NodeKind::New, Form::Lambda, *span)?;
            put(out, NodeKind::Par, Form::Lambda, *span)?;
            abstraction(out, abs, NodeKind::Serve, Form::Lambda, *span)?;
            put(out, NodeKind::Out, Form::Lambda, *span)
        }
        _ => put(out, NodeKind::Out, Form::Value, val_span(v)),
    }
}

#[cycle(places)]
fn sending_chan(out: &mut Vec<Origin>, c: &Chan) -> Made {
    match c {
        Chan::Use(span, _) => put(out, NodeKind::Out, Form::Value, *span),
        Chan::Fold(span, _, v) => {
            if is_simple(v) {
                return put(out, NodeKind::Out, Form::Value, *span);
            }
            sending(out, v)
        }
        Chan::Block(_, ds, v) => {
            declared(out, ds)?;
            sending(out, v)?;
            behind(out, ds)
        }
        Chan::Apply(span, head, fields) => {
            taken(out, head)?;
            fields_taken(out, fields)?;
            put(out, NodeKind::Out, Form::Call, *span)?;
            fields_answered(out, fields)?;
            answered(out, head)
        }
        Chan::Right(span, _, vs) => right(out, *span, vs),
        Chan::Left(span, _, vs) => left(out, *span, vs),
    }
}

fn fields_taken(out: &mut Vec<Origin>, fields: &FieldVals) -> Made {
    for v in &fields.positional {
        taken(out, v)?;
    }
    for l in &fields.labelled {
        taken(out, &l.value)?;
    }
    Ok(())
}

#[cycle(places)]
fn fields_answered(out: &mut Vec<Origin>, fields: &FieldVals) -> Made {
    for l in fields.labelled.iter().rev() {
        answered(out, &l.value)?;
    }
    for v in fields.positional.iter().rev() {
        answered(out, v)?;
    }
    Ok(())
}

// (f > a b c) is (f a (f > b c)).
#[cycle(places)]
fn right(out: &mut Vec<Origin>, span: Span, vs: &[Val]) -> Made {
    let count = vs.len();
    for (i, v) in vs.iter().enumerate() {
        if i + 1 < count {
            taken(out, v)?;
            if i + 2 < count {
                awaited(out, span)?;
            } else {
                taken(out, &vs[i + 1])?;
            }
            put(out, NodeKind::Out, Form::Call, span)?;
        }
    }
    for v in vs.iter().rev() {
        answered(out, v)?;
    }
    Ok(())
}

// (f < a b c) is (f (f < a b) c).
#[cycle(places)]
fn left(out: &mut Vec<Origin>, span: Span, vs: &[Val]) -> Made {
    for (i, v) in vs.iter().enumerate().rev() {
        if i > 0 {
            if i > 1 {
                awaited(out, span)?;
            } else {
                taken(out, &vs[0])?;
            }
            taken(out, v)?;
            put(out, NodeKind::Out, Form::Call, span)?;
        }
        answered(out, v)?;
    }
    Ok(())
}

// A channel of a process, if it is waited for, and what sends it.
fn channel_taken(out: &mut Vec<Origin>, c: &Chan) -> Made {
    if is_simple_chan(c) {
        return Ok(());
    }
    awaited(out, chan_span(c))
}

#[cycle(places)]
fn channel_answered(out: &mut Vec<Origin>, c: &Chan) -> Made {
    if is_simple_chan(c) {
        return Ok(());
    }
    sending_chan(out, c)
}

#[cycle(places)]
fn process(out: &mut Vec<Origin>, p: &Proc) -> Made {
    match p {
        Proc::Send(span, c, v) => {
            channel_taken(out, c)?;
            taken(out, v)?;
            put(out, NodeKind::Out, Form::Send, *span)?;
            answered(out, v)?;
            channel_answered(out, c)
        }
        Proc::Receive(span, c, a) => {
            channel_taken(out, c)?;
            abstraction(out, a, NodeKind::In, Form::Receive, *span)?;
            channel_answered(out, c)
        }
        Proc::Serve(span, c, a) => {
            channel_taken(out, c)?;
            abstraction(out, a, NodeKind::Serve, Form::Serve, *span)?;
            channel_answered(out, c)
        }
        Proc::If(span, test, yes, no) => {
            taken(out, test)?;
            put(out, NodeKind::If, Form::Conditional, *span)?;
            process(out, yes)?;
            process(out, no)?;
            answered(out, test)
        }
        Proc::Inert(span) => put(out, NodeKind::Zero, Form::Inert, *span),
        Proc::Group(_, ds, ps) => {
            declared(out, ds)?;
            side_by_side(out, ps)?;
            behind(out, ds)
        }
    }
}

#[cycle(places)]
fn side_by_side(out: &mut Vec<Origin>, ps: &[Proc]) -> Made {
    let count = ps.len();
    for (i, p) in ps.iter().enumerate() {
        if i + 1 < count {
            put(out, NodeKind::Par, Form::Beside, proc_span(p))?;
        }
        process(out, p)?;
    }
    Ok(())
}
