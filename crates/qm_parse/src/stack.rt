//! The goals that are left, of which the next one is on top.
ghost use Rattle.std.specs.Prelude.{◌≡◌, ◌++◌, ◌∷◌, [], OnOk, MatchOption};
ghost use Rattle.qm_parse.specs.Moves.{ranks_goals, frame_goals, statement_goals, gate_goals, body_goals, prim_goals, muls_goals, adds_goals, expr_goals, next_goals};

use crate::goals::{Fixed, Goal, add_op, is_all, is_tape, mul_op};
use crate::looks::{Look, version_seen};
use crate::tree::What;
use crate::words::{Keyword, Mark, Version};
use qm_limits::{MOST_HALVES, SLOTS};
use std::alloc::{AllocError, Global};

/// The goals that are left.
#[derive(Drop)]
pub(crate) struct Goals {
    /// From the last goal to the next one.
    pub(crate) items: Vec<Goal>,
}

impl Goals {
    ghost use Rattle.qm_parse.specs.Moves.{goals_left};

    /// No goal.
    pub(crate) fn new(alloc: Global) -> Goals
        ensures { goals_left result ≡ [] }
    {
        Goals {
            items: Vec::new(alloc),
        }
    }

    /// Takes the next goal.
    pub(crate) fn pop(&mut self) -> Option<Goal>
        ensures { MatchOption result (goals_left self.old ≡ [])
            (λ g. goals_left self.old ≡ g ∷ goals_left self.new) }
    {
        self.items.pop()
    }

    /// Puts goals in front of those that are left.
    pub(crate) fn push_all(&mut self, goals: &[Goal]) -> Result<(), AllocError>
        ensures { OnOk result (goals_left self.new ≡ goals.now ++ goals_left self.old) }
    {
        let mut left = goals.len();
        while left > 0 {
            left -= 1;
            self.items.push(goals[left])?;
        }
        Ok(())
    }

    /// Puts what stands for a goal, or follows its first token, in front. The token has the number `at`, and the next node `base`.
    pub(crate) fn push_next(
        &mut self,
        goal: Goal,
        look: Look,
        at: u32,
        base: u32,
    ) -> Result<(), AllocError>
        ensures { OnOk result
            (goals_left self.new ≡ next_goals goal look at base ++ goals_left self.old) }
    {
        match goal {
            Goal::Body | Goal::Braced | Goal::Gate => self.push_body(goal, look, base),
            Goal::Operands { .. } | Goal::Prim | Goal::Muls | Goal::Adds => self.push_expr(
                goal, look, at,
            ),
            _ => self.push_frame(goal, look, base),
        }
    }

    /// Puts what stands for a goal of the frame, or follows its first token, in front.
    fn push_frame(&mut self, goal: Goal, look: Look, base: u32) -> Result<(), AllocError>
        ensures { OnOk result
            (goals_left self.new ≡ frame_goals goal look base ++ goals_left self.old) }
    {
        match goal {
            Goal::Version => self.push_all(&[
                Goal::Fixed(Fixed::Ranks),
                Goal::Ranks {
                    version: version_seen(look),
                },
            ]),
            Goal::Ranks { version } => self.push_ranks(version, look),
            Goal::Numbers { left, end } if left > 0 => self.push_all(&[
                Goal::Number {
                    least: 1,
                    end,
                    written: true,
                },
                Goal::Numbers {
                    left: left - 1,
                    end,
                },
            ]),
            Goal::Blocks { .. } if is_all(look) => {
                self.push_all(&[
                    Goal::Body,
                    Goal::Close { node: base },
                    Goal::Fixed(Fixed::End),
                ])
            }
            Goal::Blocks { ranks } => self.push_all(&[Goal::Each { next: 0, ranks }]),
            Goal::Each { next, ranks } if next < ranks => self.push_all(&[
                Goal::Number {
                    least: next,
                    end: next + 1,
                    written: false,
                },
                Goal::Body,
                Goal::Close { node: base },
                Goal::Fixed(Fixed::End),
                Goal::Each {
                    next: next + 1,
                    ranks,
                },
            ]),
            Goal::Tapes { ranks } if is_tape(look) => self.push_all(&[
                Goal::Number {
                    least: 0,
                    end: ranks,
                    written: true,
                },
                Goal::Outcomes,
                Goal::Close { node: base },
                Goal::Tapes { ranks },
            ]),
            _ => Ok(()),
        }
    }

    /// Puts what follows the number of ranks in front.
    fn push_ranks(&mut self, version: Version, look: Look) -> Result<(), AllocError>
        ensures { OnOk result
            (goals_left self.new ≡ ranks_goals version look ++ goals_left self.old) }
    {
        match look {
            Look::Number(ranks) => self.push_all(&[
                Goal::Fixed(Fixed::Qubits),
                Goal::Numbers {
                    left: version.size_count(ranks),
                    end: u32::from(SLOTS) + 1,
                },
                Goal::Fixed(Fixed::Buffer),
                Goal::Numbers {
                    left: version.size_count(ranks),
                    end: u32::from(MOST_HALVES) + 1,
                },
                Goal::Blocks { ranks },
                Goal::Tapes { ranks },
            ]),
            _ => Ok(()),
        }
    }

    /// Puts what stands for a goal of a body, or follows its first token, in front.
    fn push_body(&mut self, goal: Goal, look: Look, base: u32) -> Result<(), AllocError>
        ensures { OnOk result
            (goals_left self.new ≡ body_goals goal look base ++ goals_left self.old) }
    {
        match goal {
            Goal::Body => self.push_statement(look, base),
            Goal::Braced => self.push_all(&[Goal::Body, Goal::Fixed(Fixed::CloseBrace)]),
            Goal::Gate => self.push_gate(look, base),
            _ => Ok(()),
        }
    }

    /// Puts what follows the first token of an instruction or a loop in front, and the rest of the body.
    fn push_statement(&mut self, look: Look, base: u32) -> Result<(), AllocError>
        ensures { OnOk result
            (goals_left self.new ≡ statement_goals look base ++ goals_left self.old) }
    {
        let close = Goal::Close { node: base };
        match look {
            Look::Verb(verb) => {
                let operands = Goal::Operands {
                    left: verb.operand_count(),
                };
                if verb.action.takes_gate() {
                    self.push_all(&[operands, Goal::Gate, close, Goal::Body])
                } else {
                    self.push_all(&[operands, close, Goal::Body])
                }
            }
            Look::Keyword(Keyword::For) => self.push_all(&[
                Goal::Name,
                Goal::Fixed(Fixed::In),
                Goal::Operands { left: 1 },
                Goal::Fixed(Fixed::Dots),
                Goal::Operands { left: 1 },
                Goal::Braced,
                close,
                Goal::Body,
            ]),
            _ => Ok(()),
        }
    }

    /// Puts what follows the verb of a gate under a `when` in front.
    fn push_gate(&mut self, look: Look, base: u32) -> Result<(), AllocError>
        ensures { OnOk result (goals_left self.new ≡ gate_goals look base ++ goals_left self.old) }
    {
        match look {
            Look::Verb(verb) => {
                let operands = Goal::Operands {
                    left: verb.operand_count(),
                };
                self.push_all(&[operands, Goal::Close { node: base }])
            }
            _ => Ok(()),
        }
    }

    /// Puts what stands for a goal of an expression, or follows its first token, in front.
    fn push_expr(&mut self, goal: Goal, look: Look, at: u32) -> Result<(), AllocError>
        ensures { OnOk result
            (goals_left self.new ≡ expr_goals goal look at ++ goals_left self.old) }
    {
        match goal {
            Goal::Operands { left } if left > 0 => self.push_all(&[
                Goal::Prim,
                Goal::Muls,
                Goal::Adds,
                Goal::Leaf {
                    what: What::Arg,
                    token: at,
                },
                Goal::Operands { left: left - 1 },
            ]),
            Goal::Prim => self.push_prim(look),
            Goal::Muls => self.push_muls(mul_op(look), at),
            Goal::Adds => self.push_adds(add_op(look), at),
            _ => Ok(()),
        }
    }

    /// Puts an expression and the parenthesis that closes it in front, where the token opens one.
    fn push_prim(&mut self, look: Look) -> Result<(), AllocError>
        ensures { OnOk result (goals_left self.new ≡ prim_goals look ++ goals_left self.old) }
    {
        match look {
            Look::Mark(Mark::OpenParenthesis) => {
                self.push_all(&[
                    Goal::Prim,
                    Goal::Muls,
                    Goal::Adds,
                    Goal::Fixed(Fixed::CloseParenthesis),
                ])
            }
            _ => Ok(()),
        }
    }

    /// Puts the right side of an operator of the level of `*` in front, its node, and more of them.
    fn push_muls(&mut self, op: Option<What>, at: u32) -> Result<(), AllocError>
        ensures { OnOk result (goals_left self.new ≡ muls_goals op at ++ goals_left self.old) }
    {
        match op {
            Some(what) => self.push_all(&[Goal::Prim, Goal::Leaf { what, token: at }, Goal::Muls]),
            None => Ok(()),
        }
    }

    /// Puts the right side of an operator of the level of `+` in front, its node, and more of them.
    fn push_adds(&mut self, op: Option<What>, at: u32) -> Result<(), AllocError>
        ensures { OnOk result (goals_left self.new ≡ adds_goals op at ++ goals_left self.old) }
    {
        match op {
            Some(what) => self.push_all(&[
                Goal::Prim,
                Goal::Muls,
                Goal::Leaf { what, token: at },
                Goal::Adds,
            ]),
            None => Ok(()),
        }
    }
}
