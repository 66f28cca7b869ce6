//! The parser: what has been read of a text, and which token may come next.

ghost use Rattle.std.specs.Prelude.{◌≡◌, ◌<◌, Some, ◌∷◌, option_map, IfOk};
ghost use Rattle.zs_term.specs.Token.{Token};
ghost use Rattle.zs_term.specs.Scan.{IsLexeme};
ghost use Rattle.zs_term.specs.Machine.{argument, begin_leaf, open_mark, close_mark, base_mark, dot_mark, pick_mark, test_mark, map_mark, inner_mark, join_mark, step_mark, step_number, step, left};
ghost use Rattle.zs_term.specs.Parts.{kept_of, stage_of, stack_of, state_in, keep, Reaches, Finishes};
ghost use Rattle.zs_term.specs.Saturating.{max_moment};

use crate::forms::{Action, Counted, Infix, Method, Scale, Subject};
use crate::part::Part;
use crate::term::{Cmp, Func, Pick};
use crate::token::{Lexeme, Mark};
use std::alloc::{AllocError, Global};

/// A parser: whether it still builds terms, and the open infix forms. A `(` takes no memory until
/// its operator is read.
#[derive(Drop)]
pub(crate) struct Parser {
    /// The allocator.
    pub alloc: Global,
    /// Whether it builds terms. Past a limit it goes on with sizes alone.
    pub build: bool,
    /// The number of innermost `(` without an operator.
    pub bare: u64,
    /// The forms outside of these whose operator was read, the innermost last.
    pub joined: Vec<Joined>,
}

/// `(S op`: an infix form with its left part.
#[derive(Drop)]
pub(crate) struct Joined {
    /// The number of `(` without an operator right before it.
    pub before: u64,
    /// The operator.
    pub form: Infix,
    /// The left part.
    pub left: Part,
}

/// What was read since the innermost frame, which determines what may come next.
#[derive(Drop)]
pub(crate) enum Stage {
    /// Nothing: a term begins here.
    Start,
    /// `word`, before its `(`.
    Opening(Counted),
    /// `word(`
    Counting(Counted),
    /// `exponential`
    ExpOpening,
    /// `exponential(`
    ExpCounting,
    /// `exponential(N`
    Based(Option<u64>),
    /// `exponential(N,`
    Factored(Option<u64>),
    /// A term without its last `)`.
    Closing(Part),
    /// A term.
    After(Part),
    /// `S.`
    Dotted(Part),
    /// `S.word`
    Method(Method, Part),
    /// `S.whileOutput(` or `S.resetWhen(`
    Picking(Action, Part),
    /// `S.word(` with its pick.
    Testing(Part, Subject),
    /// `S.word(` with its pick and comparison.
    Comparing(Part, Subject, Cmp),
    /// `S.map(`
    Mapping(Part),
    /// `S.map(as`, `S.map(+` or `S.map(*`
    Scaling(Part, Scale),
}

// The stage after `S.word(`.
fn argument_of(method: Method, part: Part) -> Stage
    ensures value { stage_of result ≡ argument method (kept_of part) }
{
    match method {
        Method::WhileInput => Stage::Testing(part, Subject::Input),
        Method::WhileOutput => Stage::Picking(Action::Stopping, part),
        Method::Map => Stage::Mapping(part),
        Method::ResetWhen => Stage::Picking(Action::Resetting, part),
    }
}

// A pick, or a comparison of the whole output.
fn pick_or_compare(action: Action, part: Part, mark: Mark) -> Option<Stage>
    ensures value { option_map stage_of result ≡ pick_mark action (kept_of part) mark }
{
    match mark {
        Mark::PieceWord(piece) => Some(Stage::Testing(part, Subject::Picked(action, piece.pick()))),
        Mark::Comparison(cmp) => Some(Stage::Comparing(
            part,
            Subject::Picked(action, Pick::Whole),
            cmp,
        )),
        _ => None,
    }
}

// A comparison.
fn compare(part: Part, subject: Subject, mark: Mark) -> Option<Stage>
    ensures value { option_map stage_of result ≡ test_mark (kept_of part) subject mark }
{
    match mark {
        Mark::Comparison(cmp) => Some(Stage::Comparing(part, subject, cmp)),
        _ => None,
    }
}

// Whether this is `(`, which leads to a stage.
fn on_open(next: Stage, mark: Mark) -> Option<Stage>
    ensures value { option_map stage_of result ≡ open_mark (stage_of next) mark }
{
    match mark {
        Mark::Open => Some(next),
        _ => None,
    }
}

// Whether this is `)`, which leads to a stage.
fn on_close(next: Stage, mark: Mark) -> Option<Stage>
    ensures value { option_map stage_of result ≡ close_mark (stage_of next) mark }
{
    match mark {
        Mark::Close => Some(next),
        _ => None,
    }
}

impl Parser {
    // The first token of a term, if it isn't `(`.
    fn begin_leaf(&self, mark: Mark) -> Result<Option<Stage>, AllocError>
        ensures value { IfOk result (λ next.
            option_map stage_of next ≡ begin_leaf (keep self.now.build) mark) }
    {
        Ok(Some(match mark {
            Mark::PlainWord(form) => Stage::After(Part::plain_leaf(self.alloc, self.build, form)?),
            Mark::CountedWord(form) => Stage::Opening(form),
            Mark::ExponentialWord => Stage::ExpOpening,
            _ => return Ok(None),
        }))
    }

    // The token after `exponential(N`.
    fn parse_after_base(&self, base: Option<u64>, mark: Mark) -> Result<Option<Stage>, AllocError>
        ensures value { IfOk result (λ next.
            option_map stage_of next ≡ base_mark (keep self.now.build) base mark) }
    {
        Ok(Some(match mark {
            Mark::Close => Stage::After(Part::exponential(self.alloc, self.build, base, Some(2))?),
            Mark::Comma => Stage::Factored(base),
            _ => return Ok(None),
        }))
    }

    // The token after `S.`.
    fn parse_after_dot(&self, part: Part, mark: Mark) -> Result<Option<Stage>, AllocError>
        ensures value { IfOk result (λ next.
            option_map stage_of next ≡ dot_mark (keep self.now.build) (kept_of part) mark) }
    {
        Ok(Some(match mark {
            Mark::CollectAllWord => Stage::After(Part::collect(self.alloc, part)?),
            Mark::MethodWord(method) => Stage::Method(method, part),
            _ => return Ok(None),
        }))
    }

    // A function without a number, or the word of one with a number.
    fn func_or_scale(&self, part: Part, mark: Mark) -> Result<Option<Stage>, AllocError>
        ensures value { IfOk result (λ next.
            option_map stage_of next ≡ map_mark (keep self.now.build) (kept_of part) mark) }
    {
        Ok(Some(match mark {
            Mark::PieceWord(piece) => Stage::Closing(Part::apply(self.alloc, part, piece.func())?),
            Mark::MergeWord => Stage::Closing(Part::apply(self.alloc, part, Func::Merge)?),
            Mark::ScaleWord(scale) => Stage::Scaling(part, scale),
            _ => return Ok(None),
        }))
    }

    // Counts one more `(`.
    #[tactic(auto, using(crate::proofs::Stacks::bare_more))]
    fn open(&mut self)
        requires room { self.old.bare < max_moment }
        ensures value { stack_of self.new ≡ left ∷ stack_of self.old }
        ensures build { self.new.build ≡ self.old.build }
    {
        self.bare += 1;
    }

    // The token after a whole term, if it isn't a dot.
    #[tactic(auto, using(crate::proofs::Stacks::joined_push, crate::proofs::Stacks::bare_first, crate::proofs::Stacks::bare_none))]
    fn parse_after_term(&mut self, part: Part, mark: Mark) -> Result<Option<Stage>, AllocError>
        ensures value { IfOk result (λ next. Reaches self.new next
            (join_mark (keep self.old.build) (stack_of self.old) (kept_of part) mark)) }
        ensures build { self.new.build ≡ self.old.build }
    {
        if 0 < self.bare {
            return match mark {
                Mark::Operator(form) => {
                    let before = self.bare - 1;
                    let left = part;
                    self.joined.push(Joined { before, form, left })?;
                    self.bare = 0;
                    Ok(Some(Stage::Start))
                }
                _ => Ok(None),
            };
        }
        match (self.joined.pop(), mark) {
            (Some(Joined { before, form, left }), Mark::Close) => {
                self.bare = before;
                Ok(Some(Stage::After(Part::join(self.alloc, form, left, part)?)))
            }
            (None | Some(_), _) => Ok(None),
        }
    }

    // A word or symbol within a form.
    fn within_form(&self, stage: Stage, mark: Mark) -> Result<Option<Stage>, AllocError>
        ensures value { IfOk result (λ next.
            option_map stage_of next ≡ inner_mark (keep self.now.build) (stage_of stage) mark) }
    {
        match stage {
            Stage::Opening(form) => Ok(on_open(Stage::Counting(form), mark)),
            Stage::ExpOpening => Ok(on_open(Stage::ExpCounting, mark)),
            Stage::Based(base) => self.parse_after_base(base, mark),
            Stage::Closing(part) => Ok(on_close(Stage::After(part), mark)),
            Stage::Dotted(part) => self.parse_after_dot(part, mark),
            Stage::Method(method, part) => Ok(on_open(argument_of(method, part), mark)),
            Stage::Picking(action, part) => Ok(pick_or_compare(action, part, mark)),
            Stage::Testing(part, subject) => Ok(compare(part, subject, mark)),
            Stage::Mapping(part) => self.func_or_scale(part, mark),
            Stage::Start
            | Stage::After(_)
            | Stage::Counting(_)
            | Stage::ExpCounting
            | Stage::Factored(_)
            | Stage::Comparing(_, _, _)
            | Stage::Scaling(_, _) => Ok(None),
        }
    }

    // Returns the stage after a word or symbol, or nothing if it may not come.
    #[tactic(auto, using(crate::proofs::Stacks::map_map))]
    fn after_mark(&mut self, stage: Stage, mark: Mark) -> Result<Option<Stage>, AllocError>
        requires room { self.old.bare < max_moment }
        ensures value { IfOk result (λ next. Reaches self.new next
            (step_mark (keep self.old.build) (stack_of self.old) (stage_of stage) mark)) }
        ensures build { self.new.build ≡ self.old.build }
    {
        match stage {
            Stage::Start => match mark {
                Mark::Open => {
                    self.open();
                    Ok(Some(Stage::Start))
                }
                _ => self.begin_leaf(mark),
            },
            Stage::After(part) => match mark {
                Mark::Dot => Ok(Some(Stage::Dotted(part))),
                _ => self.parse_after_term(part, mark),
            },
            stage => self.within_form(stage, mark),
        }
    }

    // Returns the stage after a number, or nothing if it may not come.
    fn after_number(&self, stage: Stage, value: Option<u64>) -> Result<Option<Stage>, AllocError>
        ensures value { IfOk result (λ next. Reaches self.now next
            (step_number (keep self.now.build) (stack_of self.now) (stage_of stage) value)) }
    {
        let part = match stage {
            Stage::Counting(form) => Part::counted_leaf(self.alloc, self.build, form, value)?,
            Stage::ExpCounting => return Ok(Some(Stage::Based(value))),
            Stage::Factored(base) => Part::exponential(self.alloc, self.build, base, value)?,
            Stage::Comparing(s, subject, cmp) => Part::test(self.alloc, s, subject, cmp, value)?,
            Stage::Scaling(s, scale) => Part::scale(self.alloc, s, scale, value)?,
            Stage::Start
            | Stage::After(_)
            | Stage::Opening(_)
            | Stage::ExpOpening
            | Stage::Based(_)
            | Stage::Closing(_)
            | Stage::Dotted(_)
            | Stage::Method(_, _)
            | Stage::Picking(_, _)
            | Stage::Testing(_, _)
            | Stage::Mapping(_) => return Ok(None),
        };
        Ok(Some(Stage::Closing(part)))
    }

    /// Returns the stage after a token, or nothing if the token may not come.
    pub(crate) fn after_lexeme(
        &mut self,
        stage: Stage,
        lexeme: Lexeme,
    ) -> Result<Option<Stage>, AllocError>
        requires room { self.old.bare < max_moment }
        ensures value { (t : Token) → IsLexeme lexeme t → IfOk result (λ next.
            Reaches self.new next (step (keep self.old.build) (Some (state_in self.old stage)) t)) }
        ensures build { self.new.build ≡ self.old.build }
    {
        match lexeme {
            Lexeme::Mark(mark) => self.after_mark(stage, mark),
            Lexeme::Number(value) => self.after_number(stage, value),
        }
    }

    /// Returns the whole term that was read, if no form is open.
    #[tactic(auto, using(crate::proofs::Stacks::stack_empty))]
    pub(crate) fn finish(&self, stage: Stage) -> Option<Part>
        ensures value { Finishes (state_in self.now stage) result }
    {
        if 0 < self.bare || !self.joined.is_empty() {
            return None;
        }
        if let Stage::After(part) = stage {
            return Some(part);
        }
        None
    }
}
