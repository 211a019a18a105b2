ghost use Rattle.std.specs.Prelude.{◌≡◌, ◌++◌, ◌∷◌, OnOk, map, option_map, false};
ghost use Rattle.qvt_tree_types.specs.View as view;
ghost use Rattle.qvt_tree_types.specs.Tree.{SomeExpr};
ghost use Rattle.qvt_printer_layout.specs.declared.piece.PrintPiece.TheVariants.{Line};
ghost use Rattle.qvt_printer.specs.Expressions as printed;

use crate::levels::{is_as_loose, is_chain, is_chain_or_prefix};
use crate::pieces::Pieces;
use qvt_base::list_fault::ListFault;
use qvt_base::text::Text;
use qvt_language::class::Class;
use qvt_printer_layout::piece::PrintPiece;
use qvt_printer_layout::words::{
    assign_sign, kind_word, map_word, operator_sign, resolve_word, truth_word,
};
use qvt_tree_types::tree::{
    Accumulator, Arm, Expr, Filter, Head, Item, Link, MapCall, RangeEnd, ResolveCall, Step, Stmt,
    Target,
};
use qvt_tree_types::types::{PathTree, TypeTree};
use qvt_tree_types::words::Level;

impl Pieces {
    #[cycle(printing)]
    pub fn expr(&mut self, expr: &Expr) -> Result<(), ListFault>
        ensures { OnOk result (self.new ≡ self.old ++ printed.expr (view.expr_view expr.now)) }
    {
        match expr {
            Expr::Int { value, .. } => self.put(PrintPiece::Integer(*value)),
            Expr::Str { value, .. } => self.quoted(value),
            Expr::Bool { value, .. } => self.word(truth_word(*value)),
            Expr::Null { .. } => self.word(Class::NullWord),
            Expr::SelfRef { .. } => self.word(Class::SelfWord),
            Expr::ResultRef { .. } => self.word(Class::ResultWord),
            Expr::Path(path) => self.path(path),
            Expr::Call { name, args, .. } => {
                self.name(name)?;
                self.args(args.as_slice())
            }
            Expr::Coll { kind, items, .. } => {
                self.word(kind_word(*kind))?;
                self.items(items.as_slice())
            }
            Expr::If {
                condition,
                yes,
                no,
                ..
            } => {
                self.word(Class::IfWord)?;
                self.expr(condition)?;
                self.word(Class::ThenWord)?;
                self.expr(yes)?;
                self.word(Class::ElseWord)?;
                self.expr(no)?;
                self.word(Class::EndifWord)
            }
            Expr::Object {
                variable,
                path,
                extent,
                body,
                ..
            } => {
                self.word(Class::ObjectWord)?;
                self.variable(variable)?;
                self.path(path)?;
                self.extent(extent)?;
                self.block(body.as_slice())
            }
            Expr::New {
                path,
                extent,
                args,
                ..
            } => {
                self.word(Class::NewWord)?;
                self.path(path)?;
                self.extent(extent)?;
                self.args(args.as_slice())
            }
            Expr::Map(call) => self.map_call(call),
            Expr::Resolve(call) => self.resolve(call),
            Expr::Chain {
                level,
                first,
                rest,
                ..
            } => {
                self.operand(*level, first)?;
                self.links(*level, rest.as_slice())
            }
            Expr::Prefix { signs, operand, .. } => {
                self.signs(signs.as_slice())?;
                self.prefixed(operand)
            }
            Expr::Post { first, steps, .. } => {
                self.post_first(first)?;
                self.steps(steps.as_slice())
            }
        }
    }

    #[cycle(printing)]
    fn rounded(&mut self, expr: &Expr) -> Result<(), ListFault>
        ensures { OnOk result (self.new ≡ self.old ++ printed.in_round (printed.expr (view.expr_view expr.now))) }
    {
        self.word(Class::OpenRound)?;
        self.expr(expr)?;
        self.word(Class::CloseRound)
    }

    #[cycle(printing)]
    fn operand(&mut self, level: Level, expr: &Expr) -> Result<(), ListFault>
        ensures { OnOk result (self.new ≡ self.old ++ printed.operand level (view.expr_view expr.now)) }
    {
        if is_as_loose(level, expr) {
            self.rounded(expr)
        } else {
            self.expr(expr)
        }
    }

    #[cycle(printing)]
    fn prefixed(&mut self, expr: &Expr) -> Result<(), ListFault>
        ensures { OnOk result (self.new ≡ self.old ++ printed.prefixed (view.expr_view expr.now)) }
    {
        if is_chain(expr) {
            self.rounded(expr)
        } else {
            self.expr(expr)
        }
    }

    #[cycle(printing)]
    pub fn post_first(&mut self, expr: &Expr) -> Result<(), ListFault>
        ensures { OnOk result (self.new ≡ self.old ++ printed.post_first (view.expr_view expr.now)) }
    {
        if is_chain_or_prefix(expr) {
            self.rounded(expr)
        } else {
            self.expr(expr)
        }
    }

    #[cycle(printing)]
    fn exprs(&mut self, exprs: &[Expr]) -> Result<(), ListFault>
        ensures { OnOk result (self.new ≡ self.old ++ printed.exprs false (view.exprs_of (map view.expr_view exprs.now))) }
    {
        let mut started = false;
        for expr in exprs {
            self.comma_if(started)?;
            self.expr(expr)?;
            started = true;
        }
        Ok(())
    }

    #[cycle(printing)]
    fn args(&mut self, args: &[Expr]) -> Result<(), ListFault>
        ensures { OnOk result (self.new ≡ self.old ++ printed.in_round (printed.exprs false (view.exprs_of (map view.expr_view args.now)))) }
    {
        self.word(Class::OpenRound)?;
        self.exprs(args)?;
        self.word(Class::CloseRound)
    }

    #[cycle(printing)]
    fn link(&mut self, level: Level, link: &Link) -> Result<(), ListFault>
        ensures { OnOk result (self.new ≡ self.old ++ printed.link level (view.link_view link.now)) }
    {
        self.word(operator_sign(link.op))?;
        self.operand(level, &link.operand)
    }

    #[cycle(printing)]
    fn links(&mut self, level: Level, links: &[Link]) -> Result<(), ListFault>
        ensures { OnOk result (self.new ≡ self.old ++ printed.links level (view.links_of (map view.link_view links.now))) }
    {
        for link in links {
            self.link(level, link)?;
        }
        Ok(())
    }

    #[cycle(printing)]
    fn all_items(&mut self, items: &[Item]) -> Result<(), ListFault>
        ensures { OnOk result (self.new ≡ self.old ++ printed.all_items false (view.items_of (map view.item_view items.now))) }
    {
        let mut started = false;
        for item in items {
            self.comma_if(started)?;
            self.item(item)?;
            started = true;
        }
        Ok(())
    }

    #[cycle(printing)]
    fn items(&mut self, items: &[Item]) -> Result<(), ListFault>
        ensures { OnOk result (self.new ≡ self.old ++ printed.in_items (printed.all_items false (view.items_of (map view.item_view items.now)))) }
    {
        self.open_items()?;
        self.all_items(items)?;
        self.close_items()
    }

    #[cycle(printing)]
    fn item(&mut self, item: &Item) -> Result<(), ListFault>
        ensures { OnOk result (self.new ≡ self.old ++ printed.item (view.item_view item.now)) }
    {
        self.expr(&item.first)?;
        self.range(&item.last)
    }

    #[cycle(printing)]
    fn range(&mut self, range: &Option<RangeEnd>) -> Result<(), ListFault>
        ensures { OnOk result (self.new ≡ self.old ++ printed.range (view.optional_range (option_map view.range_view range.now))) }
    {
        match range {
            None => Ok(()),
            Some(range) => {
                self.word(Class::DotDot)?;
                self.expr(&range.last)
            }
        }
    }

    #[cycle(printing)]
    fn map_call(&mut self, call: &MapCall) -> Result<(), ListFault>
        ensures { OnOk result (self.new ≡ self.old ++ printed.map_call (view.map_view call.now)) }
    {
        self.word(map_word(call.strict))?;
        self.name(&call.name)?;
        self.args(call.args.as_slice())
    }

    #[cycle(printing)]
    fn resolve(&mut self, call: &ResolveCall) -> Result<(), ListFault>
        ensures { OnOk result (self.new ≡ self.old ++ printed.resolve (view.resolve_view call.now)) }
    {
        self.late_if(call.late)?;
        self.word(resolve_word(call.word))?;
        self.word(Class::OpenRound)?;
        self.resolved(&call.within, &call.filter)?;
        self.word(Class::CloseRound)
    }

    #[cycle(printing)]
    fn resolved(&mut self, within: &Option<PathTree>, by: &Option<Filter>) -> Result<(), ListFault>
        ensures { OnOk result (self.new ≡ self.old ++ printed.resolved within.now (view.optional_filter (option_map view.filter_view by.now))) }
    {
        match (within, by) {
            (None, None) => Ok(()),
            (None, Some(filter)) => self.filter(filter),
            (Some(path), None) => self.path(path),
            (Some(path), Some(filter)) => {
                self.path(path)?;
                self.word(Class::Comma)?;
                self.filter(filter)
            }
        }
    }

    #[cycle(printing)]
    fn filter(&mut self, filter: &Filter) -> Result<(), ListFault>
        ensures { OnOk result (self.new ≡ self.old ++ printed.filter (view.filter_view filter.now)) }
    {
        self.named_if(&filter.name)?;
        self.type_of(&filter.kind)?;
        self.boxed_condition_if(&filter.condition)
    }

    #[cycle(printing)]
    fn condition(&mut self, condition: &Expr) -> Result<(), ListFault>
        ensures { OnOk result (self.new ≡ self.old ++ printed.condition_if (SomeExpr (view.expr_view condition.now))) }
    {
        self.word(Class::Bar)?;
        self.expr(condition)
    }

    #[cycle(printing)]
    fn boxed_condition_if(&mut self, condition: &Option<Box<Expr>>) -> Result<(), ListFault>
        ensures { OnOk result (self.new ≡ self.old ++ printed.condition_if (view.optional_expr (option_map (λ e. view.expr_view e.value) condition.now))) }
    {
        match condition {
            None => Ok(()),
            Some(condition) => self.condition(condition),
        }
    }

    #[cycle(printing)]
    fn condition_if(&mut self, condition: &Option<Expr>) -> Result<(), ListFault>
        ensures { OnOk result (self.new ≡ self.old ++ printed.condition_if (view.optional_expr (option_map view.expr_view condition.now))) }
    {
        match condition {
            None => Ok(()),
            Some(condition) => self.condition(condition),
        }
    }

    #[cycle(printing)]
    fn head(&mut self, head: &Option<Head>) -> Result<(), ListFault>
        ensures { OnOk result (self.new ≡ self.old ++ printed.head (view.optional_head (option_map view.head_view head.now))) }
    {
        match head {
            None => Ok(()),
            Some(head) => {
                self.name(&head.name)?;
                self.typed_if(&head.kind)?;
                self.accumulator(&head.accumulator)?;
                self.word(Class::Bar)
            }
        }
    }

    #[cycle(printing)]
    fn accumulator(&mut self, accumulator: &Option<Accumulator>) -> Result<(), ListFault>
        ensures { OnOk result (self.new ≡ self.old ++ printed.accumulator (view.optional_accumulator (option_map view.accumulator_view accumulator.now))) }
    {
        match accumulator {
            None => Ok(()),
            Some(accumulator) => {
                self.word(Class::Semicolon)?;
                self.name(&accumulator.name)?;
                self.typed(&accumulator.kind)?;
                self.word(Class::EqualSign)?;
                self.expr(&accumulator.first)
            }
        }
    }

    #[cycle(printing)]
    fn steps(&mut self, steps: &[Step]) -> Result<(), ListFault>
        ensures { OnOk result (self.new ≡ self.old ++ printed.steps (view.steps_of (map view.step_view steps.now))) }
    {
        for step in steps {
            self.step(step)?;
        }
        Ok(())
    }

    #[cycle(printing)]
    fn step(&mut self, step: &Step) -> Result<(), ListFault>
        ensures { OnOk result (self.new ≡ self.old ++ printed.step (view.step_view step.now)) }
    {
        match step {
            Step::Dot { name, args, .. } => {
                self.word(Class::Dot)?;
                self.name(name)?;
                match args {
                    None => Ok(()),
                    Some(args) => self.args(args.as_slice()),
                }
            }
            Step::Arrow {
                name,
                head,
                args,
                ..
            } => {
                self.word(Class::Arrow)?;
                self.name(name)?;
                self.word(Class::OpenRound)?;
                self.head(head)?;
                self.exprs(args.as_slice())?;
                self.word(Class::CloseRound)
            }
            Step::DotMap(call) => {
                self.word(Class::Dot)?;
                self.map_call(call)
            }
            Step::ArrowMap(call) => {
                self.word(Class::Arrow)?;
                self.map_call(call)
            }
            Step::DotResolve(call) => {
                self.word(Class::Dot)?;
                self.resolve(call)
            }
            Step::ArrowResolve(call) => {
                self.word(Class::Arrow)?;
                self.resolve(call)
            }
        }
    }

    #[cycle(printing)]
    fn target(&mut self, target: &Target) -> Result<(), ListFault>
        ensures { OnOk result (self.new ≡ self.old ++ printed.target (view.target_view target.now)) }
    {
        match target {
            Target::Bare { name, .. } => self.name(name),
            Target::ResultVar { .. } => self.word(Class::ResultWord),
            Target::Member { object, name, .. } => {
                self.post_first(object)?;
                self.word(Class::Dot)?;
                self.name(name)
            }
        }
    }

    #[cycle(printing)]
    fn stmt(&mut self, stmt: &Stmt) -> Result<(), ListFault>
        ensures { OnOk result (self.new ≡ self.old ++ printed.stmt (view.stmt_view stmt.now)) }
    {
        match stmt {
            Stmt::Var {
                name,
                kind,
                value,
                ..
            } => {
                self.word(Class::VarWord)?;
                self.name(name)?;
                self.typed_if(kind)?;
                self.first_value(value)?;
                self.word(Class::Semicolon)
            }
            Stmt::Assign {
                target,
                adds,
                value,
                ..
            } => {
                self.target(target)?;
                self.word(assign_sign(*adds))?;
                self.expr(value)?;
                self.word(Class::Semicolon)
            }
            Stmt::Return { value, .. } => {
                self.word(Class::ReturnWord)?;
                self.optional(value)?;
                self.word(Class::Semicolon)
            }
            Stmt::Value { value, .. } => {
                self.expr(value)?;
                self.word(Class::Semicolon)
            }
            Stmt::If {
                condition,
                body,
                arms,
                otherwise,
                ..
            } => {
                self.word(Class::IfWord)?;
                self.rounded(condition)?;
                self.block(body.as_slice())?;
                self.arms(arms.as_slice())?;
                match otherwise {
                    None => Ok(()),
                    Some(body) => {
                        self.word(Class::ElseWord)?;
                        self.block(body.as_slice())
                    }
                }
            }
            Stmt::While {
                condition,
                body,
                ..
            } => {
                self.word(Class::WhileWord)?;
                self.rounded(condition)?;
                self.block(body.as_slice())
            }
            Stmt::ForEach {
                source,
                name,
                kind,
                condition,
                body,
                ..
            } => {
                self.post_first(source)?;
                self.word(Class::Arrow)?;
                self.word(Class::ForEachWord)?;
                self.iterator(condition, name, kind)?;
                self.block(body.as_slice())
            }
        }
    }

    /// The variable of a `forEach` with its type and condition, in brackets.
    #[cycle(printing)]
    fn iterator(
        &mut self,
        condition: &Option<Expr>,
        name: &Text,
        kind: &Option<TypeTree>,
    ) -> Result<(), ListFault>
        ensures { OnOk result (self.new ≡ self.old ++ printed.iterator name.now (view.optional_type kind.now) (printed.condition_if (view.optional_expr (option_map view.expr_view condition.now)))) }
    {
        self.word(Class::OpenRound)?;
        self.name(name)?;
        self.typed_if(kind)?;
        self.condition_if(condition)?;
        self.word(Class::CloseRound)
    }

    #[cycle(printing)]
    fn optional(&mut self, value: &Option<Expr>) -> Result<(), ListFault>
        ensures { OnOk result (self.new ≡ self.old ++ printed.optional (view.optional_expr (option_map view.expr_view value.now))) }
    {
        match value {
            None => Ok(()),
            Some(value) => self.expr(value),
        }
    }

    #[cycle(printing)]
    fn first_value(&mut self, value: &Option<Expr>) -> Result<(), ListFault>
        ensures { OnOk result (self.new ≡ self.old ++ printed.first_value (view.optional_expr (option_map view.expr_view value.now))) }
    {
        match value {
            None => Ok(()),
            Some(value) => {
                self.word(Class::Becomes)?;
                self.expr(value)
            }
        }
    }

    #[cycle(printing)]
    fn arms(&mut self, arms: &[Arm]) -> Result<(), ListFault>
        ensures { OnOk result (self.new ≡ self.old ++ printed.arms (view.arms_of (map view.arm_view arms.now))) }
    {
        for arm in arms {
            self.arm(arm)?;
        }
        Ok(())
    }

    #[cycle(printing)]
    fn arm(&mut self, arm: &Arm) -> Result<(), ListFault>
        ensures { OnOk result (self.new ≡ self.old ++ printed.arm (view.arm_view arm.now)) }
    {
        self.word(Class::ElifWord)?;
        self.rounded(&arm.condition)?;
        self.block(arm.body.as_slice())
    }

    #[cycle(printing)]
    pub fn block(&mut self, body: &[Stmt]) -> Result<(), ListFault>
        ensures { OnOk result (self.new ≡ self.old ++ printed.block (view.block_view body.now)) }
    {
        self.open_block()?;
        self.stmts(body)?;
        self.close_block()
    }

    #[cycle(printing)]
    fn stmts(&mut self, body: &[Stmt]) -> Result<(), ListFault>
        ensures { OnOk result (self.new ≡ self.old ++ printed.stmts (view.block_view body.now)) }
    {
        for stmt in body {
            self.line_of(stmt)?;
        }
        Ok(())
    }

    #[cycle(printing)]
    fn line_of(&mut self, stmt: &Stmt) -> Result<(), ListFault>
        ensures { OnOk result (self.new ≡ self.old ++ Line ∷ printed.stmt (view.stmt_view stmt.now)) }
    {
        self.put(PrintPiece::Line)?;
        self.stmt(stmt)
    }
}
