//! Sums as a line tells them: a span is its two offsets with a dot between them, a `~` and a `[` have their offset
//! behind them, and each monomial ends in a semicolon.
use crate::tables::check_remark;
use model_core::{Bracket, Index, Span, Sum, WrittenFactor, WrittenLiteral, WrittenMonomial};
use model_reader::{ParsedSum, parse_sum};
use std::alloc::{AllocError, Global};

/// Texts and their sums.
const SUMS: &str = "
a => +0.1 ;
 a  => +1.2 ;
a b => +0.1 2.3 ;
a1_B => +0.4 ;
2a => +0.1 1.2 ;
-a => -1.2 ;
 - a-b+ c => -3.4 ;-5.6 ;+8.9 ;
a ~ => +0.1~2 ;
p~ p p~ p => +0.1~1 3.4 5.6~6 8.9 ;
1/24 S S S S => +0.1/2.4 5.6 7.8 9.10 11.12 ;
007 / 0 x => +0.3/6.7 8.9 ;
-2 a + 3/4 b~[2](i,j) - c => -1.2 3.4 ;+7.8/9.10 11.12~12[13 d14.15],17.18,19.20 ;-24.25 ;
Q[i](a,c) u[j](c) H(b) eps(a,b) => +0.1[1 w2.3],5.6,7.8 10.11[11 w12.13],15.16 18.19,20.21 23.26,27.28,29.30 ;
a[12]b => +0.1[1 d2.4] 5.6 ;
a[x1](y)z~ => +0.1[1 w2.4],6.7 8.9~9 ;
 a ~ [ 1 ] ( b , c ) + 2 / 3 d  => +1.2~3[5 d7.8],13.14,17.18 ;+23.24/27.28 29.30 ;
";

fn push_span(line: &mut String, alloc: Global, span: Span) -> Result<(), AllocError> {
    let part = format!(in alloc; "{}.{}", span.start, span.end)?;
    line.push_str(part.as_str())
}

fn push_literal(
    line: &mut String,
    alloc: Global,
    literal: WrittenLiteral,
) -> Result<(), AllocError> {
    push_span(line, alloc, literal.numerator)?;
    if let Some(denominator) = literal.denominator {
        line.push('/')?;
        push_span(line, alloc, denominator)?;
    }
    line.push(' ')
}

fn push_bracket(line: &mut String, alloc: Global, bracket: Bracket) -> Result<(), AllocError> {
    let part = format!(in alloc; "[{} ", bracket.at)?;
    line.push_str(part.as_str())?;
    match bracket.index {
        Index::Word(span) => {
            line.push('w')?;
            push_span(line, alloc, span)?;
        }
        Index::Digits(span) => {
            line.push('d')?;
            push_span(line, alloc, span)?;
        }
    }
    line.push(']')
}

fn push_factor(line: &mut String, alloc: Global, factor: &WrittenFactor) -> Result<(), AllocError> {
    push_span(line, alloc, factor.word)?;
    if let Some(at) = factor.tilde {
        let part = format!(in alloc; "~{at}")?;
        line.push_str(part.as_str())?;
    }
    if let Some(bracket) = factor.bracket {
        push_bracket(line, alloc, bracket)?;
    }
    for label in factor.labels.as_slice() {
        line.push(',')?;
        push_span(line, alloc, *label)?;
    }
    Ok(())
}

fn push_monomial(
    line: &mut String,
    alloc: Global,
    monomial: &WrittenMonomial,
) -> Result<(), AllocError> {
    line.push(if monomial.negative { '-' } else { '+' })?;
    if let Some(literal) = monomial.literal {
        push_literal(line, alloc, literal)?;
    }
    for factor in monomial.factors.as_slice() {
        push_factor(line, alloc, factor)?;
        line.push(' ')?;
    }
    line.push(';')
}

fn told(alloc: Global, sum: &Sum) -> Result<String, AllocError> {
    let mut line = String::new(alloc);
    for monomial in sum.as_slice() {
        push_monomial(&mut line, alloc, monomial)?;
    }
    Ok(line)
}

#[test]
fn sums(rt: HostRuntime) -> Result<(), AllocError> {
    for row in SUMS.lines() {
        let Some((text, wanted)) = row.split_once(" => ") else {
            check_remark(&rt, row);
            continue;
        };
        let told = match parse_sum(rt.alloc(), text.as_bytes())? {
            ParsedSum::Sum(sum) => told(rt.alloc(), &sum)?,
            ParsedSum::Bad(offset) => format!(in rt.alloc(); "bad {offset}")?,
        };
        assert_eq!(rt; told.as_str(), wanted, "{row}");
    }
    Ok(())
}
