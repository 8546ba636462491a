//! Well-formed files, and the models that they stand for.
use crate::tables::{check_remark, tell_fraction, tell_number, with_line_breaks};
use frac128::ByteList;
use model_core::{Entry, Field, Group, Model, Table};
use model_reader::{ReadError, read_model};
use std::alloc::{AllocError, Global};
use su_reps::Rep;

fn rep_word(rep: Rep) -> &'static str {
    match rep {
        Rep::Singlet => " singlet",
        Rep::Fund => " fund",
        Rep::Conj => " conj",
        Rep::Adjoint => " adjoint",
        Rep::Sym2 => " sym2",
        Rep::Sym2Conj => " sym2conj",
        Rep::Anti2 => " anti2",
        Rep::Anti2Conj => " anti2conj",
    }
}

fn tell_group(alloc: Global, line: &mut ByteList, group: &Group) -> Result<(), AllocError> {
    line.extend(b"; ")?;
    line.extend(group.name.as_bytes())?;
    line.extend(b" ")?;
    tell_number(alloc, line, group.n)?;
    line.extend(b" ")?;
    line.extend(group.coupling.as_bytes())?;
    line.extend(b" ")?;
    line.extend(group.latex.as_bytes())
}

fn tell_field(alloc: Global, line: &mut ByteList, field: &Field) -> Result<(), AllocError> {
    line.extend(b"; ")?;
    line.extend(field.name.as_bytes())?;
    line.extend(b" ")?;
    tell_number(alloc, line, field.generations)?;
    line.extend(b" ")?;
    tell_fraction(alloc, line, field.charge)?;
    for rep in field.reps.as_slice() {
        line.extend(rep_word(*rep).as_bytes())?;
    }
    if field.real {
        line.extend(b" real")?;
    }
    Ok(())
}

fn tell_numbers(alloc: Global, line: &mut ByteList, numbers: &[u32]) -> Result<(), AllocError> {
    for number in numbers {
        line.extend(b" ")?;
        tell_number(alloc, line, *number)?;
    }
    Ok(())
}

fn tell_entry(alloc: Global, line: &mut ByteList, entry: &Entry) -> Result<(), AllocError> {
    line.extend(b" at")?;
    tell_numbers(alloc, line, entry.at.as_slice())?;
    line.extend(b" ")?;
    tell_fraction(alloc, line, entry.value)
}

fn tell_table(alloc: Global, line: &mut ByteList, table: &Table) -> Result<(), AllocError> {
    line.extend(b"; ")?;
    line.extend(table.name.as_bytes())?;
    line.extend(b" slots")?;
    tell_numbers(alloc, line, table.slots.as_slice())?;
    for entry in table.entries.as_slice() {
        tell_entry(alloc, line, entry)?;
    }
    Ok(())
}

fn tell_model(alloc: Global, line: &mut ByteList, model: &Model) -> Result<(), AllocError> {
    line.extend(model.name.as_bytes())?;
    for group in model.groups.as_slice() {
        tell_group(alloc, line, group)?;
    }
    for field in model.fermions.as_slice() {
        tell_field(alloc, line, field)?;
    }
    for field in model.scalars.as_slice() {
        tell_field(alloc, line, field)?;
        line.extend(b" scalar")?;
    }
    for table in model.tables.as_slice() {
        tell_table(alloc, line, table)?;
    }
    Ok(())
}

/// The parts of a file's model in a line.
fn model_of(alloc: Global, file: &[u8]) -> Result<ByteList, AllocError> {
    let mut line = ByteList::new(alloc);
    match read_model(alloc, file) {
        Ok(model) => tell_model(alloc, &mut line, &model)?,
        Err(ReadError::Fault(_)) => line.extend(b"malformed")?,
        Err(ReadError::NoMemory) => return Err(AllocError),
    }
    Ok(line)
}

/// Whole files, `@` for a line break, and the parts of their models: the name; for each group its name, n, coupling and its text in LaTeX; for
/// each field its name, generations, charge and a representation for each group; for each table its name, the place of each slot's group, and
/// for each entry its numbers and its fraction.
const MODELS: &str = r#"
# No groups.
profile=1@name='m' => m
profile=1@name='m'@group=[]@fermion=[]@scalar=[] => m
profile=1@name='m'@fermion=[{name='A'},{name='B',generations=6,charge=0,reps={}}] => m; A 1 0/1; B 6 0/1
profile=1@name='phi'@scalar=[{name='S',real=true},{name='T',real=false},{name='U'}] => phi; S 1 0/1 real scalar; T 1 0/1 scalar; U 1 0/1 scalar
# Forms of the document: order of keys, headers, quoted and dotted keys, escapes, other bases, comments, line ends.
name='two'@profile=1@[[fermion]]@reps={L='conj',c='fund'}@name='Q'@generations=3@[[group]]@coupling='g'@n=3@name='c'@[[group]]@n=2@name='L'@coupling='gw'@[[scalar]]@real=true@name='S'@[[fermion]]@name='e'@ => two; c 3 g g; L 2 gw gw; Q 3 0/1 fund conj; e 1 0/1 singlet singlet; S 1 0/1 singlet singlet real scalar
profile=1@name='m'@[[group]]@name='c'@n=3@coupling='g'@[[fermion]]@name='q'@[fermion.reps]@c='sym2'@[[fermion]]@name='p'@reps.c='anti2'@ => m; c 3 g g; q 1 0/1 sym2; p 1 0/1 anti2
'profile'=0x1@"name"="\u006d"@group=[{"name"='u','n'=+1,coupling="g"},{name='c',n=0b11,coupling='h'}]@fermion=[{name='q',generations=0o3,charge=1_000,reps.c="f\u0075nd"}] => m; u 1 g g; c 3 h h; q 3 1000/1 singlet fund
# Names.
profile=1@name='abcdefghijklmnopqrstuvwx'@group=[{name='A_0',n=2,coupling='abcdefghijklmnopqrstuvwx'}]@fermion=[{name='ABCDEFGHIJKLMNOPQRSTUVWX'}] => abcdefghijklmnopqrstuvwx; A_0 2 abcdefghijklmnopqrstuvwx abcdefghijklmnopqrstuvwx; ABCDEFGHIJKLMNOPQRSTUVWX 1 0/1 singlet
profile=1@name='q'@group=[{name='c',n=2,coupling='C',latex='c'}]@fermion=[{name='q'},{name='Q'}] => q; c 2 C c; q 1 0/1 singlet; Q 1 0/1 singlet
# Groups and their texts in LaTeX.
profile=1@name='m'@group=[{name='b',n=2,coupling='g2'},{name='c',n=4,coupling='g4',latex='g_4'},{name='d',n=5,coupling='g5',latex='g_4'},{name='e',n=6,coupling='g6',latex=' '}] => m; b 2 g2 g2; c 4 g4 g_4; d 5 g5 g_4; e 6 g6  
profile=1@name='m'@group=[{name='c',n=3,coupling='g',latex='\tilde{g}_{~}'},{name='u',n=1,coupling='h',latex='abcdefghijklmnopqrstuvwxyz0123456789abcd'}] => m; c 3 g \tilde{g}_{~}; u 1 h abcdefghijklmnopqrstuvwxyz0123456789abcd
# Charges are kept in lowest terms.
profile=1@name='QED'@group=[{name='u',n=1,coupling='e'}]@fermion=[{name='l',charge='-1'},{name='lc',charge=1},{name='n'}] => QED; u 1 e e; l 1 -1/1 singlet; lc 1 1/1 singlet; n 1 0/1 singlet
profile=1@name='m'@group=[{name='u',n=1,coupling='g'}]@fermion=[{name='a',charge='2/4'},{name='b',charge='-2/4'},{name='c',charge='01/02'},{name='d',charge='6/3'},{name='e',charge='-6/1'}] => m; u 1 g g; a 1 1/2 singlet; b 1 -1/2 singlet; c 1 1/2 singlet; d 1 2/1 singlet; e 1 -6/1 singlet
profile=1@name='m'@group=[{name='u',n=1,coupling='g'}]@fermion=[{name='a',charge='0'},{name='b',charge='-0'},{name='c',charge='0/1'},{name='d',charge='-0/1000000'},{name='e',charge=-0}] => m; u 1 g g; a 1 0/1 singlet; b 1 0/1 singlet; c 1 0/1 singlet; d 1 0/1 singlet; e 1 0/1 singlet
profile=1@name='m'@group=[{name='u',n=1,coupling='g'}]@scalar=[{name='a',charge='1/1000000'},{name='b',charge='-1/1000000'},{name='c',charge='1000000000/1'},{name='d',charge='-1000000000'},{name='e',charge=1000000000},{name='f',charge=-1000000000}] => m; u 1 g g; a 1 1/1000000 singlet scalar; b 1 -1/1000000 singlet scalar; c 1 1000000000/1 singlet scalar; d 1 -1000000000/1 singlet scalar; e 1 1000000000/1 singlet scalar; f 1 -1000000000/1 singlet scalar
profile=1@name='m'@group=[{name='u',n=1,coupling='g'}]@fermion=[{name='a',charge='1000000000/1000000'},{name='b',charge='999999999/1000000'},{name='c',charge='-1000000000/999999'},{name='d',charge='0000000000000000000000000000000000000000003/0000000000000000000000000000000000000000006'}] => m; u 1 g g; a 1 1000/1 singlet; b 1 999999999/1000000 singlet; c 1 -1000000000/999999 singlet; d 1 1/2 singlet
profile=1@name='m'@group=[{name='c',n=2,coupling='g'}]@fermion=[{name='a',charge=0},{name='b',charge='-0/7'}]@scalar=[{name='d',charge='00'}] => m; c 2 g g; a 1 0/1 singlet; b 1 0/1 singlet; d 1 0/1 singlet scalar
# Representations: a group that isn't named is a singlet, and the U(1) is one for each field.
profile=1@name='m'@group=[{name='c',n=5,coupling='g'}]@fermion=[{name='s',reps={c='singlet'}},{name='f',reps={c='fund'}},{name='fc',reps={c='conj'}},{name='a',reps={c='adjoint'}},{name='t',reps={c='sym2'}},{name='tc',reps={c='sym2conj'}},{name='u',reps={c='anti2'}},{name='uc',reps={c='anti2conj'}}] => m; c 5 g g; s 1 0/1 singlet; f 1 0/1 fund; fc 1 0/1 conj; a 1 0/1 adjoint; t 1 0/1 sym2; tc 1 0/1 sym2conj; u 1 0/1 anti2; uc 1 0/1 anti2conj
profile=1@name='m'@group=[{name='c',n=2,coupling='g'}]@scalar=[{name='s',reps={c='singlet'}},{name='f',reps={c='fund'}},{name='fc',reps={c='conj'}},{name='a',reps={c='adjoint'}},{name='t',reps={c='sym2'}},{name='tc',reps={c='sym2conj'}},{name='u',reps={c='anti2'}},{name='uc',reps={c='anti2conj'}}] => m; c 2 g g; s 1 0/1 singlet scalar; f 1 0/1 fund scalar; fc 1 0/1 conj scalar; a 1 0/1 adjoint scalar; t 1 0/1 sym2 scalar; tc 1 0/1 sym2conj scalar; u 1 0/1 anti2 scalar; uc 1 0/1 anti2conj scalar
profile=1@name='m'@group=[{name='z',n=2,coupling='g'},{name='y',n=3,coupling='h'},{name='u',n=1,coupling='i'},{name='w',n=6,coupling='j'}]@fermion=[{name='q',generations=2,charge='1/6',reps={w='fund',z='conj'}},{name='p',reps={y='anti2'}},{name='r'}] => m; z 2 g g; y 3 h h; u 1 i i; w 6 j j; q 2 1/6 conj singlet singlet fund; p 1 0/1 singlet anti2 singlet singlet; r 1 0/1 singlet singlet singlet singlet
# Real scalars.
profile=1@name='adj'@group=[{name='c',n=2,coupling='g'}]@scalar=[{name='P',real=true,reps={c='adjoint'}},{name='S',real=true,reps={c='singlet'}},{name='T',real=false,reps={c='adjoint'}}] => adj; c 2 g g; P 1 0/1 adjoint real scalar; S 1 0/1 singlet real scalar; T 1 0/1 adjoint scalar
profile=1@name='m'@group=[{name='u',n=1,coupling='a'},{name='b',n=2,coupling='g'},{name='c',n=3,coupling='h'}]@scalar=[{name='P',charge='-0/5',real=true,reps={c='adjoint',b='adjoint'}},{name='S',generations=6,charge=0,real=true}] => m; u 1 a a; b 2 g g; c 3 h h; P 1 0/1 singlet adjoint adjoint real scalar; S 6 0/1 singlet singlet singlet real scalar
# The Standard Model.
profile=1@name='SM'@group=[{name='Y',n=1,coupling='g1'},{name='L',n=2,coupling='g2'},{name='c',n=3,coupling='g3'}]@fermion=[{name='Q',generations=3,charge='1/6',reps={L='fund',c='fund'}},{name='u',generations=3,charge='-2/3',reps={c='conj'}},{name='d',generations=3,charge='1/3',reps={c='conj'}},{name='E',generations=3,charge='-1/2',reps={L='fund'}},{name='e',generations=3,charge='1'}]@scalar=[{name='H',charge='1/2',reps={L='fund'}}] => SM; Y 1 g1 g1; L 2 g2 g2; c 3 g3 g3; Q 3 1/6 singlet fund fund; u 3 -2/3 singlet singlet conj; d 3 1/3 singlet singlet conj; E 3 -1/2 singlet fund singlet; e 3 1/1 singlet singlet singlet; H 1 1/2 singlet fund singlet scalar
# A fermion and scalars with as many components as there may be.
profile=1@name='m'@group=[{name='w',n=4,coupling='a'},{name='x',n=4,coupling='b'},{name='y',n=4,coupling='c'},{name='z',n=4,coupling='d'}]@fermion=[{name='q',generations=2,reps={w='fund',x='fund',y='fund',z='conj'}}]@scalar=[{name='H',generations=2,reps={x='fund',y='fund',z='conj'}}] => m; w 4 a a; x 4 b b; y 4 c c; z 4 d d; q 2 0/1 fund fund fund conj; H 2 0/1 singlet fund fund conj scalar
# Tables.
profile=1@name='m'@table=[] => m
# The places of groups are counted from 0, the U(1) included.
profile=1@name='m'@group=[{name='c',n=2,coupling='g'}]@table=[{name='t',slots=['c'],entries=[]}] => m; c 2 g g; t slots 0
profile=1@name='m'@group=[{name='z',n=2,coupling='g'},{name='u',n=1,coupling='h'},{name='y',n=3,coupling='i'},{name='w',n=6,coupling='j'}]@table=[{name='t',slots=['w','y','z','z','w'],entries=[{at=[6,3,2,1,1],value='-3/6'}]}] => m; z 2 g g; u 1 h h; y 3 i i; w 6 j j; t slots 3 2 0 0 3 at 6 3 2 1 1 -1/2
# Entries keep their order, and a 0 that is written stays.
profile=1@name='m'@group=[{name='b',n=2,coupling='g'}]@table=[{name='e2',slots=['b','b'],entries=[{at=[2,1],value=-1},{value='01/1',at=[1,2]},{at=[1,1],value=0}]}] => m; b 2 g g; e2 slots 0 0 at 2 1 -1/1 at 1 2 1/1 at 1 1 0/1
profile=1@name='m'@group=[{name='b',n=2,coupling='g'}]@[[table]]@name='t'@slots=['b']@[[table.entries]]@at=[0x1]@value='1000000000/1000000'@[[table.entries]]@at=[+2]@value=-1_000_000_000@[[table]]@entries=[]@slots=['b','b','b','b','b','b','b','b']@name='s'@ => m; b 2 g g; t slots 0 at 1 1000/1 at 2 -1000000000/1; s slots 0 0 0 0 0 0 0 0
# A table may have the file's name, and its entries come after all fields.
profile=1@name='t'@table=[{name='t',slots=['c'],entries=[{at=[3],value='1/3'}]}]@scalar=[{name='T'}]@group=[{name='c',n=3,coupling='g'}] => t; c 3 g g; T 1 0/1 singlet scalar; t slots 0 at 3 1/3
profile=1@name='m'@group=[{name='c',n=3,coupling='g'}]@table=[{name='T',slots=['c','c'],entries=[{at=[1,1],value='1/2'}]},{name='t',slots=['c','c'],entries=[{at=[1,1],value='1/2'},{at=[3,3],value='2/4'}]}] => m; c 3 g g; T slots 0 0 at 1 1 1/2; t slots 0 0 at 1 1 1/2 at 3 3 1/2
profile=1@name='m'@group=[{name='c',n=3,coupling='g'}]@table=[{name='t',slots=['c','c'],entries=[{at=[1,3],value=1},{at=[1,4],value=1}]}] => malformed
# Remarks.
# profile=2@profile=1 # one@name='m'@@group=[@  {name='c',n=3,coupling='g'}, # the only one@]@ => m; c 3 g g
"#;

#[test]
fn models(rt: HostRuntime) -> Result<(), AllocError> {
    for row in MODELS.lines() {
        let Some((file, model)) = row.split_once(" => ") else {
            check_remark(&rt, row);
            continue;
        };
        let file = with_line_breaks(rt.alloc(), file)?;
        let line = model_of(rt.alloc(), file.as_slice())?;
        assert_eq!(rt; line.as_slice(), model.as_bytes(), "{row}");
    }
    Ok(())
}
