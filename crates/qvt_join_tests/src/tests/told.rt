//! The nodes of a typed tree with the numbers of their notes, a node before its parts.

use qvt_base::list_fault::ListFault;
use qvt_base::text::Text;
use qvt_types_data::note::Note;
use qvt_types_nodes::module::{
    TypedClassDecl, TypedHelper, TypedMapping, TypedModule, TypedParam, TypedUnit,
};
use qvt_types_nodes::tree::{
    TypedAccumulator, TypedArm, TypedExpr, TypedFilter, TypedHead, TypedItem, TypedLink,
    TypedMapCall, TypedResolveCall, TypedStep, TypedStmt, TypedTarget,
};
use qvt_types_nodes::types::{TypedObjectVar, TypedPathTree, TypedSign, TypedTypeTree};
use std::alloc::Global;

/// What is told of a tree.
#[derive(Drop)]
pub struct Told {
    alloc: Global,
    pub text: Text,
}

impl Told {
    pub fn new(alloc: Global) -> Told {
        Told {
            alloc,
            text: Text::new(alloc),
        }
    }

    fn number(&mut self, number: u32) -> Result<(), ListFault> {
        match number.to_string(self.alloc) {
            Ok(digits) => self.text.push_str(digits.as_str()),
            Err(_) => Err(ListFault::NoMemory),
        }
    }

    /// The name of a node and the number of its note, `-` where that has none.
    fn node(&mut self, name: &str, note: &Note) -> Result<(), ListFault> {
        if !self.text.is_empty() {
            self.text.push_str(", ")?;
        }
        self.text.push_str(name)?;
        self.text.push_str(" ")?;
        match note.number {
            Some(number) => self.number(number.0),
            None => self.text.push_str("-"),
        }
    }

    fn path(&mut self, path: &TypedPathTree) -> Result<(), ListFault> {
        self.node("Path", &path.note)
    }

    fn paths(&mut self, paths: &[TypedPathTree]) -> Result<(), ListFault> {
        for path in paths {
            self.path(path)?;
        }
        Ok(())
    }

    fn signs(&mut self, signs: &[TypedSign]) -> Result<(), ListFault> {
        for sign in signs {
            self.node("Sign", &sign.note)?;
        }
        Ok(())
    }

    fn variable(&mut self, variable: &Option<TypedObjectVar>) -> Result<(), ListFault> {
        match variable {
            Some(TypedObjectVar::Named { note, .. }) => self.node("Named", note),
            Some(TypedObjectVar::ResultVar { note, .. }) => self.node("ResultVar", note),
            None => Ok(()),
        }
    }

    #[cycle(types)]
    fn kind(&mut self, kind: &TypedTypeTree) -> Result<(), ListFault> {
        match kind {
            TypedTypeTree::Coll { item, note, .. } => {
                self.node("CollType", note)?;
                self.kind(item)
            }
            TypedTypeTree::Path(path) => self.path(path),
        }
    }

    fn optional_kind(&mut self, kind: &Option<TypedTypeTree>) -> Result<(), ListFault> {
        match kind {
            Some(kind) => self.kind(kind),
            None => Ok(()),
        }
    }
}

/// Expressions.
impl Told {
    #[cycle(told)]
    fn expr(&mut self, expr: &TypedExpr) -> Result<(), ListFault> {
        match expr {
            TypedExpr::Int { note, .. } => self.node("Int", note),
            TypedExpr::Str { note, .. } => self.node("Str", note),
            TypedExpr::Bool { note, .. } => self.node("Bool", note),
            TypedExpr::Null { note, .. } => self.node("Null", note),
            TypedExpr::SelfRef { note, .. } => self.node("SelfRef", note),
            TypedExpr::ResultRef { note, .. } => self.node("ResultRef", note),
            TypedExpr::Path(path) => self.path(path),
            TypedExpr::Call { args, note, .. } => {
                self.node("Call", note)?;
                self.exprs(args.as_slice())
            }
            TypedExpr::Coll { items, note, .. } => {
                self.node("Coll", note)?;
                self.items(items.as_slice())
            }
            TypedExpr::If {
                condition,
                yes,
                no,
                note,
                ..
            } => {
                self.node("If", note)?;
                self.expr(condition)?;
                self.expr(yes)?;
                self.expr(no)
            }
            TypedExpr::Object {
                variable,
                path,
                body,
                note,
                ..
            } => {
                self.node("Object", note)?;
                self.variable(variable)?;
                self.path(path)?;
                self.stmts(body.as_slice())
            }
            TypedExpr::New {
                path,
                args,
                note,
                ..
            } => {
                self.node("New", note)?;
                self.path(path)?;
                self.exprs(args.as_slice())
            }
            TypedExpr::Map(call) => self.map_call("Map", call),
            TypedExpr::Resolve(call) => self.resolve("Resolve", call),
            TypedExpr::Chain {
                first,
                rest,
                note,
                ..
            } => {
                self.node("Chain", note)?;
                self.expr(first)?;
                self.links(rest.as_slice())
            }
            TypedExpr::Prefix {
                signs,
                operand,
                note,
                ..
            } => {
                self.node("Prefix", note)?;
                self.signs(signs.as_slice())?;
                self.expr(operand)
            }
            TypedExpr::Post {
                first,
                steps,
                note,
                ..
            } => {
                self.node("Post", note)?;
                self.expr(first)?;
                self.steps(steps.as_slice())
            }
        }
    }

    #[cycle(told)]
    fn exprs(&mut self, exprs: &[TypedExpr]) -> Result<(), ListFault> {
        for expr in exprs {
            self.expr(expr)?;
        }
        Ok(())
    }

    #[cycle(told)]
    fn boxed_expr(&mut self, expr: &Option<Box<TypedExpr>>) -> Result<(), ListFault> {
        match expr {
            Some(expr) => self.expr(expr),
            None => Ok(()),
        }
    }

    #[cycle(told)]
    fn optional_expr(&mut self, expr: &Option<TypedExpr>) -> Result<(), ListFault> {
        match expr {
            Some(expr) => self.expr(expr),
            None => Ok(()),
        }
    }

    #[cycle(told)]
    fn item(&mut self, item: &TypedItem) -> Result<(), ListFault> {
        self.node("Item", &item.note)?;
        self.expr(&item.first)?;
        match &item.last {
            Some(end) => {
                self.node("RangeEnd", &end.note)?;
                self.expr(&end.last)
            }
            None => Ok(()),
        }
    }

    #[cycle(told)]
    fn items(&mut self, items: &[TypedItem]) -> Result<(), ListFault> {
        for item in items {
            self.item(item)?;
        }
        Ok(())
    }

    #[cycle(told)]
    fn link(&mut self, link: &TypedLink) -> Result<(), ListFault> {
        self.node("Link", &link.note)?;
        self.expr(&link.operand)
    }

    #[cycle(told)]
    fn links(&mut self, links: &[TypedLink]) -> Result<(), ListFault> {
        for link in links {
            self.link(link)?;
        }
        Ok(())
    }

    #[cycle(told)]
    fn map_call(&mut self, name: &str, call: &TypedMapCall) -> Result<(), ListFault> {
        self.node(name, &call.note)?;
        self.exprs(call.args.as_slice())
    }

    #[cycle(told)]
    fn filter(&mut self, filter: &TypedFilter) -> Result<(), ListFault> {
        self.node("Filter", &filter.note)?;
        self.kind(&filter.kind)?;
        self.boxed_expr(&filter.condition)
    }

    #[cycle(told)]
    fn resolve(&mut self, name: &str, call: &TypedResolveCall) -> Result<(), ListFault> {
        self.node(name, &call.note)?;
        if let Some(path) = &call.within {
            self.path(path)?;
        }
        match &call.filter {
            Some(filter) => self.filter(filter),
            None => Ok(()),
        }
    }

    #[cycle(told)]
    fn accumulator(&mut self, accumulator: &TypedAccumulator) -> Result<(), ListFault> {
        self.node("Accumulator", &accumulator.note)?;
        self.kind(&accumulator.kind)?;
        self.expr(&accumulator.first)
    }

    #[cycle(told)]
    fn head(&mut self, head: &TypedHead) -> Result<(), ListFault> {
        self.node("Head", &head.note)?;
        self.optional_kind(&head.kind)?;
        match &head.accumulator {
            Some(accumulator) => self.accumulator(accumulator),
            None => Ok(()),
        }
    }

    #[cycle(told)]
    fn step(&mut self, step: &TypedStep) -> Result<(), ListFault> {
        match step {
            TypedStep::Dot { args, note, .. } => {
                self.node("Dot", note)?;
                match args {
                    Some(args) => self.exprs(args.as_slice()),
                    None => Ok(()),
                }
            }
            TypedStep::Arrow {
                head,
                args,
                note,
                ..
            } => {
                self.node("Arrow", note)?;
                if let Some(head) = head {
                    self.head(head)?;
                }
                self.exprs(args.as_slice())
            }
            TypedStep::DotMap(call) => self.map_call("DotMap", call),
            TypedStep::ArrowMap(call) => self.map_call("ArrowMap", call),
            TypedStep::DotResolve(call) => self.resolve("DotResolve", call),
            TypedStep::ArrowResolve(call) => self.resolve("ArrowResolve", call),
        }
    }

    #[cycle(told)]
    fn steps(&mut self, steps: &[TypedStep]) -> Result<(), ListFault> {
        for step in steps {
            self.step(step)?;
        }
        Ok(())
    }
}

/// Statements.
impl Told {
    #[cycle(told)]
    fn target(&mut self, target: &TypedTarget) -> Result<(), ListFault> {
        match target {
            TypedTarget::Bare { note, .. } => self.node("Bare", note),
            TypedTarget::ResultVar { note, .. } => self.node("ResultVar", note),
            TypedTarget::Member { object, note, .. } => {
                self.node("Member", note)?;
                self.expr(object)
            }
        }
    }

    #[cycle(told)]
    fn stmt(&mut self, stmt: &TypedStmt) -> Result<(), ListFault> {
        match stmt {
            TypedStmt::Var {
                kind,
                value,
                note,
                ..
            } => {
                self.node("var", note)?;
                self.optional_kind(kind)?;
                self.optional_expr(value)
            }
            TypedStmt::Assign {
                target,
                value,
                note,
                ..
            } => {
                self.node("assign", note)?;
                self.target(target)?;
                self.expr(value)
            }
            TypedStmt::Return { value, note, .. } => {
                self.node("return", note)?;
                self.optional_expr(value)
            }
            TypedStmt::Value { value, note, .. } => {
                self.node("value", note)?;
                self.expr(value)
            }
            TypedStmt::If {
                condition,
                body,
                arms,
                otherwise,
                note,
                ..
            } => {
                self.node("if", note)?;
                self.expr(condition)?;
                self.stmts(body.as_slice())?;
                self.arms(arms.as_slice())?;
                match otherwise {
                    Some(body) => self.stmts(body.as_slice()),
                    None => Ok(()),
                }
            }
            TypedStmt::While {
                condition,
                body,
                note,
                ..
            } => {
                self.node("while", note)?;
                self.expr(condition)?;
                self.stmts(body.as_slice())
            }
            TypedStmt::ForEach {
                source,
                kind,
                condition,
                body,
                note,
                ..
            } => {
                self.node("forEach", note)?;
                self.expr(source)?;
                self.optional_kind(kind)?;
                self.boxed_expr(condition)?;
                self.stmts(body.as_slice())
            }
        }
    }

    #[cycle(told)]
    fn arm(&mut self, arm: &TypedArm) -> Result<(), ListFault> {
        self.expr(&arm.condition)?;
        self.stmts(arm.body.as_slice())
    }

    #[cycle(told)]
    fn arms(&mut self, arms: &[TypedArm]) -> Result<(), ListFault> {
        for arm in arms {
            self.arm(arm)?;
        }
        Ok(())
    }

    #[cycle(told)]
    fn stmts(&mut self, stmts: &[TypedStmt]) -> Result<(), ListFault> {
        for stmt in stmts {
            self.stmt(stmt)?;
        }
        Ok(())
    }
}

/// Units.
impl Told {
    fn params(&mut self, params: &[TypedParam]) -> Result<(), ListFault> {
        for param in params {
            self.node("Param", &param.note)?;
            self.kind(&param.kind)?;
        }
        Ok(())
    }

    fn class(&mut self, class: &TypedClassDecl) -> Result<(), ListFault> {
        self.node("class", &class.note)?;
        self.paths(class.supers.as_slice())?;
        for field in class.features.as_slice() {
            self.node("Field", &field.note)?;
            self.kind(&field.kind)?;
        }
        Ok(())
    }

    fn helper(&mut self, name: &str, helper: &TypedHelper) -> Result<(), ListFault> {
        self.node(name, &helper.note)?;
        self.params(helper.params.as_slice())?;
        self.optional_kind(&helper.answer)?;
        self.stmts(helper.body.as_slice())
    }

    fn mapping(&mut self, mapping: &TypedMapping) -> Result<(), ListFault> {
        self.node("mapping", &mapping.note)?;
        self.params(mapping.params.as_slice())?;
        if let Some(result) = &mapping.result {
            self.node("ResultDecl", &result.note)?;
            self.path(&result.path)?;
        }
        self.paths(mapping.inherits.as_slice())?;
        self.paths(mapping.merges.as_slice())?;
        self.paths(mapping.disjuncts.as_slice())?;
        self.optional_expr(&mapping.condition)?;
        self.stmts(mapping.init.as_slice())?;
        self.stmts(mapping.population.as_slice())?;
        self.stmts(mapping.finish.as_slice())
    }

    fn unit(&mut self, unit: &TypedUnit) -> Result<(), ListFault> {
        match unit {
            TypedUnit::Class(class) => self.class(class),
            TypedUnit::Main(body, _, note) => {
                self.node("main", note)?;
                self.stmts(body.as_slice())
            }
            TypedUnit::Helper(helper) => self.helper("helper", helper),
            TypedUnit::Constructor(helper) => self.helper("constructor", helper),
            TypedUnit::Mapping(mapping) => self.mapping(mapping),
        }
    }

    pub fn module(&mut self, module: &TypedModule) -> Result<(), ListFault> {
        for model_type in module.model_types.as_slice() {
            self.node("modeltype", &model_type.note)?;
        }
        for param in module.params.as_slice() {
            self.node("ModelParam", &param.note)?;
        }
        for unit in module.units.as_slice() {
            self.unit(unit)?;
        }
        Ok(())
    }
}
