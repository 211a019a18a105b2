//! The nodes of a tree with their places, level by level.

use qvt_base::list_fault::ListFault;
use qvt_base::numbers::Place;
use qvt_base::seq::Seq;
use qvt_tree::module::{ClassDecl, Helper, Mapping, Module, Param, Unit};
use qvt_tree::tree::{Expr, Filter, Head, Item, Link, ResolveCall, Step, Stmt, Target};
use qvt_tree::types::{ObjectVar, PathTree, TypeTree};
use std::alloc::Global;

/// A part of a tree: what has no parts that have places, or a node of a kind that nests.
#[derive(Clone, Copy)]
pub enum Part<'a> {
    Leaf(&'static str, Place),
    Unit(&'a Unit),
    Stmt(&'a Stmt),
    Expr(&'a Expr),
    Step(&'a Step),
    Type(&'a TypeTree),
}

/// Parts of a tree, in the order in which they are told.
#[derive(Drop)]
pub struct Parts<'a> {
    list: Seq<Part<'a>>,
}

impl<'a> Parts<'a> {
    pub fn new(alloc: Global) -> Parts<'a> {
        Parts {
            list: Seq::new(alloc),
        }
    }

    pub fn at(&self, i: usize) -> Option<Part<'a>> {
        match self.list.get(i) {
            Some(part) => Some(*part),
            None => None,
        }
    }

    fn leaf(&mut self, name: &'static str, place: Place) -> Result<(), ListFault> {
        self.list.push(Part::Leaf(name, place))
    }

    pub fn module(&mut self, module: &'a Module) -> Result<(), ListFault> {
        for model_type in module.model_types.as_slice() {
            self.leaf("modeltype", model_type.place)?;
        }
        self.model_params(module)?;
        for unit in module.units.as_slice() {
            self.list.push(Part::Unit(unit))?;
        }
        Ok(())
    }

    fn model_params(&mut self, module: &'a Module) -> Result<(), ListFault> {
        for param in module.params.as_slice() {
            self.leaf("ModelParam", param.place)?;
        }
        Ok(())
    }

    fn path(&mut self, path: &'a PathTree) -> Result<(), ListFault> {
        self.leaf("Path", path.place)
    }

    fn paths(&mut self, paths: &'a [PathTree]) -> Result<(), ListFault> {
        for path in paths {
            self.path(path)?;
        }
        Ok(())
    }

    fn kind(&mut self, kind: &'a TypeTree) -> Result<(), ListFault> {
        self.list.push(Part::Type(kind))
    }

    fn optional_kind(&mut self, kind: &'a Option<TypeTree>) -> Result<(), ListFault> {
        match kind {
            Some(kind) => self.kind(kind),
            None => Ok(()),
        }
    }

    fn expr(&mut self, expr: &'a Expr) -> Result<(), ListFault> {
        self.list.push(Part::Expr(expr))
    }

    fn optional_expr(&mut self, expr: &'a Option<Expr>) -> Result<(), ListFault> {
        match expr {
            Some(expr) => self.expr(expr),
            None => Ok(()),
        }
    }

    fn exprs(&mut self, exprs: &'a [Expr]) -> Result<(), ListFault> {
        for expr in exprs {
            self.expr(expr)?;
        }
        Ok(())
    }

    fn stmts(&mut self, stmts: &'a [Stmt]) -> Result<(), ListFault> {
        for stmt in stmts {
            self.list.push(Part::Stmt(stmt))?;
        }
        Ok(())
    }

    fn item(&mut self, item: &'a Item) -> Result<(), ListFault> {
        self.leaf("Item", item.place)?;
        self.expr(&item.first)?;
        let Some(end) = &item.last else {
            return Ok(());
        };
        self.leaf("RangeEnd", end.place)?;
        self.expr(&end.last)
    }

    fn items(&mut self, items: &'a [Item]) -> Result<(), ListFault> {
        for item in items {
            self.item(item)?;
        }
        Ok(())
    }

    fn link(&mut self, link: &'a Link) -> Result<(), ListFault> {
        self.leaf("Link", link.place)?;
        self.expr(&link.operand)
    }

    fn filter(&mut self, filter: &'a Filter) -> Result<(), ListFault> {
        self.leaf("Filter", filter.place)?;
        self.kind(&filter.kind)?;
        match &filter.condition {
            Some(condition) => self.expr(condition),
            None => Ok(()),
        }
    }

    fn resolve(&mut self, call: &'a ResolveCall) -> Result<(), ListFault> {
        if let Some(path) = &call.within {
            self.path(path)?;
        }
        match &call.filter {
            Some(filter) => self.filter(filter),
            None => Ok(()),
        }
    }

    fn head(&mut self, head: &'a Head) -> Result<(), ListFault> {
        self.leaf("Head", head.place)?;
        self.optional_kind(&head.kind)?;
        let Some(accumulator) = &head.accumulator else {
            return Ok(());
        };
        self.leaf("Accumulator", accumulator.place)?;
        self.kind(&accumulator.kind)?;
        self.expr(&accumulator.first)
    }

    fn target(&mut self, target: &'a Target) -> Result<(), ListFault> {
        match target {
            Target::Bare { place, .. } => self.leaf("Bare", *place),
            Target::ResultVar { place } => self.leaf("ResultVar", *place),
            Target::Member { object, place, .. } => {
                self.leaf("Member", *place)?;
                self.expr(object)
            }
        }
    }

    fn variable(&mut self, variable: &'a Option<ObjectVar>) -> Result<(), ListFault> {
        match variable {
            Some(ObjectVar::Named { place, .. }) => self.leaf("Named", *place),
            Some(ObjectVar::ResultVar { place }) => self.leaf("ResultVar", *place),
            None => Ok(()),
        }
    }
}

/// What each kind of node that nests is called, its place, and its parts.
impl<'a> Parts<'a> {
    /// The parts of a part, put after all others.
    pub fn open(&mut self, part: Part<'a>) -> Result<(), ListFault> {
        match part {
            Part::Leaf(..) => Ok(()),
            Part::Unit(unit) => self.open_unit(unit),
            Part::Stmt(stmt) => self.open_stmt(stmt),
            Part::Expr(expr) => self.open_expr(expr),
            Part::Step(step) => self.open_step(step),
            Part::Type(TypeTree::Coll { item, .. }) => self.kind(item),
            Part::Type(TypeTree::Path(_)) => Ok(()),
        }
    }

    fn params(&mut self, params: &'a [Param]) -> Result<(), ListFault> {
        for param in params {
            self.leaf("Param", param.place)?;
            self.kind(&param.kind)?;
        }
        Ok(())
    }

    fn open_class(&mut self, class: &'a ClassDecl) -> Result<(), ListFault> {
        self.paths(class.supers.as_slice())?;
        for field in class.features.as_slice() {
            self.leaf("Field", field.place)?;
            self.kind(&field.kind)?;
        }
        Ok(())
    }

    fn open_helper(&mut self, helper: &'a Helper) -> Result<(), ListFault> {
        self.params(helper.params.as_slice())?;
        self.optional_kind(&helper.answer)?;
        self.stmts(helper.body.as_slice())
    }

    fn open_mapping(&mut self, mapping: &'a Mapping) -> Result<(), ListFault> {
        self.params(mapping.params.as_slice())?;
        if let Some(result) = &mapping.result {
            self.leaf("ResultDecl", result.place)?;
            self.path(&result.path)?;
        }
        self.paths(mapping.inherits.as_slice())?;
        self.paths(mapping.merges.as_slice())?;
        self.paths(mapping.disjuncts.as_slice())?;
        self.open_body(mapping)
    }

    fn open_body(&mut self, mapping: &'a Mapping) -> Result<(), ListFault> {
        self.optional_expr(&mapping.condition)?;
        self.stmts(mapping.init.as_slice())?;
        self.stmts(mapping.population.as_slice())?;
        self.stmts(mapping.finish.as_slice())
    }

    fn open_unit(&mut self, unit: &'a Unit) -> Result<(), ListFault> {
        match unit {
            Unit::Class(class) => self.open_class(class),
            Unit::Main(body, _) => self.stmts(body.as_slice()),
            Unit::Helper(helper) => self.open_helper(helper),
            Unit::Constructor(helper) => self.open_helper(helper),
            Unit::Mapping(mapping) => self.open_mapping(mapping),
        }
    }

    fn open_if(&mut self, stmt: &'a Stmt) -> Result<(), ListFault> {
        let Stmt::If {
            condition,
            body,
            arms,
            otherwise,
            ..
        } = stmt
        else {
            return Ok(());
        };
        self.expr(condition)?;
        self.stmts(body.as_slice())?;
        for arm in arms.as_slice() {
            self.expr(&arm.condition)?;
            self.stmts(arm.body.as_slice())?;
        }
        match otherwise {
            Some(body) => self.stmts(body.as_slice()),
            None => Ok(()),
        }
    }

    fn open_for_each(&mut self, stmt: &'a Stmt) -> Result<(), ListFault> {
        let Stmt::ForEach {
            source,
            kind,
            condition,
            body,
            ..
        } = stmt
        else {
            return Ok(());
        };
        self.expr(source)?;
        self.optional_kind(kind)?;
        self.optional_expr(condition)?;
        self.stmts(body.as_slice())
    }

    fn open_stmt(&mut self, stmt: &'a Stmt) -> Result<(), ListFault> {
        match stmt {
            Stmt::Var { kind, value, .. } => {
                self.optional_kind(kind)?;
                self.optional_expr(value)
            }
            Stmt::Assign { target, value, .. } => {
                self.target(target)?;
                self.expr(value)
            }
            Stmt::Return { value, .. } => self.optional_expr(value),
            Stmt::Value { value, .. } => self.expr(value),
            Stmt::If { .. } => self.open_if(stmt),
            Stmt::While {
                condition,
                body,
                ..
            } => {
                self.expr(condition)?;
                self.stmts(body.as_slice())
            }
            Stmt::ForEach { .. } => self.open_for_each(stmt),
        }
    }

    fn open_object(&mut self, expr: &'a Expr) -> Result<(), ListFault> {
        let Expr::Object {
            variable,
            path,
            body,
            ..
        } = expr
        else {
            return Ok(());
        };
        self.variable(variable)?;
        self.path(path)?;
        self.stmts(body.as_slice())
    }

    fn open_prefix(&mut self, expr: &'a Expr) -> Result<(), ListFault> {
        let Expr::Prefix { signs, operand, .. } = expr else {
            return Ok(());
        };
        for sign in signs.as_slice() {
            self.leaf("Sign", sign.place)?;
        }
        self.expr(operand)
    }

    fn open_chain(&mut self, expr: &'a Expr) -> Result<(), ListFault> {
        let Expr::Chain { first, rest, .. } = expr else {
            return Ok(());
        };
        self.expr(first)?;
        for link in rest.as_slice() {
            self.link(link)?;
        }
        Ok(())
    }

    fn open_post(&mut self, expr: &'a Expr) -> Result<(), ListFault> {
        let Expr::Post { first, steps, .. } = expr else {
            return Ok(());
        };
        self.expr(first)?;
        for step in steps.as_slice() {
            self.list.push(Part::Step(step))?;
        }
        Ok(())
    }

    fn open_expr(&mut self, expr: &'a Expr) -> Result<(), ListFault> {
        match expr {
            Expr::Call { args, .. } => self.exprs(args.as_slice()),
            Expr::Coll { items, .. } => self.items(items.as_slice()),
            Expr::If {
                condition,
                yes,
                no,
                ..
            } => {
                self.expr(condition)?;
                self.expr(yes)?;
                self.expr(no)
            }
            Expr::Object { .. } => self.open_object(expr),
            Expr::New { path, args, .. } => {
                self.path(path)?;
                self.exprs(args.as_slice())
            }
            Expr::Map(call) => self.exprs(call.args.as_slice()),
            Expr::Resolve(call) => self.resolve(call),
            Expr::Chain { .. } => self.open_chain(expr),
            Expr::Prefix { .. } => self.open_prefix(expr),
            Expr::Post { .. } => self.open_post(expr),
            _ => Ok(()),
        }
    }

    fn open_step(&mut self, step: &'a Step) -> Result<(), ListFault> {
        match step {
            Step::Dot { args: None, .. } => Ok(()),
            Step::Dot {
                args: Some(args),
                ..
            } => self.exprs(args.as_slice()),
            Step::Arrow { head, args, .. } => {
                if let Some(head) = head {
                    self.head(head)?;
                }
                self.exprs(args.as_slice())
            }
            Step::DotMap(call) => self.exprs(call.args.as_slice()),
            Step::ArrowMap(call) => self.exprs(call.args.as_slice()),
            Step::DotResolve(call) => self.resolve(call),
            Step::ArrowResolve(call) => self.resolve(call),
        }
    }
}

pub type Placed = (&'static str, Place);

/// What a part is called in the tables, and its place.
pub fn placed(part: Part) -> Placed {
    match part {
        Part::Leaf(name, place) => (name, place),
        Part::Unit(unit) => placed_unit(unit),
        Part::Stmt(stmt) => placed_stmt(stmt),
        Part::Expr(expr) => placed_expr(expr),
        Part::Step(step) => placed_step(step),
        Part::Type(TypeTree::Coll { place, .. }) => ("CollType", *place),
        Part::Type(TypeTree::Path(path)) => ("Path", path.place),
    }
}

fn placed_unit(unit: &Unit) -> Placed {
    match unit {
        Unit::Class(class) => ("class", class.place),
        Unit::Main(_, place) => ("main", *place),
        Unit::Helper(helper) => ("helper", helper.place),
        Unit::Constructor(helper) => ("constructor", helper.place),
        Unit::Mapping(mapping) => ("mapping", mapping.place),
    }
}

fn placed_stmt(stmt: &Stmt) -> Placed {
    match stmt {
        Stmt::Var { place, .. } => ("var", *place),
        Stmt::Assign { place, .. } => ("assign", *place),
        Stmt::Return { place, .. } => ("return", *place),
        Stmt::Value { place, .. } => ("value", *place),
        Stmt::If { place, .. } => ("if", *place),
        Stmt::While { place, .. } => ("while", *place),
        Stmt::ForEach { place, .. } => ("forEach", *place),
    }
}

fn placed_expr(expr: &Expr) -> Placed {
    match expr {
        Expr::Int { place, .. } => ("Int", *place),
        Expr::Str { place, .. } => ("Str", *place),
        Expr::Bool { place, .. } => ("Bool", *place),
        Expr::Null { place } => ("Null", *place),
        Expr::SelfRef { place } => ("SelfRef", *place),
        Expr::ResultRef { place } => ("ResultRef", *place),
        Expr::Path(path) => ("Path", path.place),
        Expr::Call { place, .. } => ("Call", *place),
        Expr::Coll { place, .. } => ("Coll", *place),
        Expr::If { place, .. } => ("If", *place),
        Expr::Object { place, .. } => ("Object", *place),
        Expr::New { place, .. } => ("New", *place),
        Expr::Map(call) => ("Map", call.place),
        Expr::Resolve(call) => ("Resolve", call.place),
        Expr::Chain { place, .. } => ("Chain", *place),
        Expr::Prefix { place, .. } => ("Prefix", *place),
        Expr::Post { place, .. } => ("Post", *place),
    }
}

fn placed_step(step: &Step) -> Placed {
    match step {
        Step::Dot { place, .. } => ("Dot", *place),
        Step::Arrow { place, .. } => ("Arrow", *place),
        Step::DotMap(call) => ("DotMap", call.place),
        Step::ArrowMap(call) => ("ArrowMap", call.place),
        Step::DotResolve(call) => ("DotResolve", call.place),
        Step::ArrowResolve(call) => ("ArrowResolve", call.place),
    }
}
