ghost use Rattle.std.specs.Prelude.{◌≡◌, map};
ghost use Rattle.std.specs.Option.{option_map};
ghost use Rattle.qvt_tree.specs.Same as same;
ghost use Rattle.qvt_tree_types.specs.View as view;

use crate::leaf::{
    same_optional_path, same_optional_text, same_optional_type, same_optional_variable, same_path,
    same_signs, same_text, same_type,
};
use qvt_tree_types::tree::{
    Accumulator, Arm, ArmList, Expr, ExprList, Filter, Head, Item, ItemList, Link, LinkList,
    MapCall, RangeEnd, ResolveCall, Step, StepList, Stmt, Stmts, Target,
};

#[cycle(same)]
fn same_exprs(a: &ExprList, b: &ExprList) -> bool
    ensures { result ≡ same.same_exprs (view.exprs_of (map view.expr_view a.now)) (view.exprs_of (map view.expr_view b.now)) }
{
    if a.len() != b.len() {
        return false;
    }
    let xs = a.as_slice();
    let ys = b.as_slice();
    for i in 0..xs.len() {
        if !same_expr(&xs[i], &ys[i]) {
            return false;
        }
    }
    true
}

#[cycle(same)]
fn same_links(a: &LinkList, b: &LinkList) -> bool
    ensures { result ≡ same.same_links (view.links_of (map view.link_view a.now)) (view.links_of (map view.link_view b.now)) }
{
    if a.len() != b.len() {
        return false;
    }
    let xs = a.as_slice();
    let ys = b.as_slice();
    for i in 0..xs.len() {
        if !same_link(&xs[i], &ys[i]) {
            return false;
        }
    }
    true
}

#[cycle(same)]
fn same_items(a: &ItemList, b: &ItemList) -> bool
    ensures { result ≡ same.same_items (view.items_of (map view.item_view a.now)) (view.items_of (map view.item_view b.now)) }
{
    if a.len() != b.len() {
        return false;
    }
    let xs = a.as_slice();
    let ys = b.as_slice();
    for i in 0..xs.len() {
        if !same_item(&xs[i], &ys[i]) {
            return false;
        }
    }
    true
}

#[cycle(same)]
fn same_steps(a: &StepList, b: &StepList) -> bool
    ensures { result ≡ same.same_steps (view.steps_of (map view.step_view a.now)) (view.steps_of (map view.step_view b.now)) }
{
    if a.len() != b.len() {
        return false;
    }
    let xs = a.as_slice();
    let ys = b.as_slice();
    for i in 0..xs.len() {
        if !same_step(&xs[i], &ys[i]) {
            return false;
        }
    }
    true
}

#[cycle(same)]
pub fn same_stmts(a: &Stmts, b: &Stmts) -> bool
    ensures { result ≡ same.same_stmts (view.stmts_of (map view.stmt_view a.now)) (view.stmts_of (map view.stmt_view b.now)) }
{
    if a.len() != b.len() {
        return false;
    }
    let xs = a.as_slice();
    let ys = b.as_slice();
    for i in 0..xs.len() {
        if !same_stmt(&xs[i], &ys[i]) {
            return false;
        }
    }
    true
}

#[cycle(same)]
fn same_arms(a: &ArmList, b: &ArmList) -> bool
    ensures { result ≡ same.same_arms (view.arms_of (map view.arm_view a.now)) (view.arms_of (map view.arm_view b.now)) }
{
    if a.len() != b.len() {
        return false;
    }
    let xs = a.as_slice();
    let ys = b.as_slice();
    for i in 0..xs.len() {
        if !same_arm(&xs[i], &ys[i]) {
            return false;
        }
    }
    true
}

#[cycle(same)]
pub fn same_optional_expr(a: &Option<Expr>, b: &Option<Expr>) -> bool
    ensures { result ≡ same.same_optional_expr (view.optional_expr (option_map view.expr_view a.now)) (view.optional_expr (option_map view.expr_view b.now)) }
{
    let Some(a) = a else {
        return b.is_none();
    };
    let Some(b) = b else {
        return false;
    };
    same_expr(a, b)
}

#[cycle(same)]
fn same_boxed(a: &Box<Expr>, b: &Box<Expr>) -> bool
    ensures { result ≡ same.same_expr (view.expr_view a.now.value) (view.expr_view b.now.value) }
{
    same_expr(a, b)
}

#[cycle(same)]
fn same_optional_range(a: &Option<RangeEnd>, b: &Option<RangeEnd>) -> bool
    ensures { result ≡ same.same_range (view.optional_range (option_map view.range_view a.now)) (view.optional_range (option_map view.range_view b.now)) }
{
    let Some(a) = a else {
        return b.is_none();
    };
    let Some(b) = b else {
        return false;
    };
    same_expr(&a.last, &b.last)
}

#[cycle(same)]
fn same_optional_filter(a: &Option<Filter>, b: &Option<Filter>) -> bool
    ensures { result ≡ same.same_filter (view.optional_filter (option_map view.filter_view a.now)) (view.optional_filter (option_map view.filter_view b.now)) }
{
    let Some(a) = a else {
        return b.is_none();
    };
    let Some(b) = b else {
        return false;
    };
    if !(same_optional_text(&a.name, &b.name) && same_type(&a.kind, &b.kind)) {
        return false;
    }
    let Some(x) = &a.condition else {
        return b.condition.is_none();
    };
    let Some(y) = &b.condition else {
        return false;
    };
    same_boxed(x, y)
}

#[cycle(same)]
fn same_optional_head(a: &Option<Head>, b: &Option<Head>) -> bool
    ensures { result ≡ same.same_head (view.optional_head (option_map view.head_view a.now)) (view.optional_head (option_map view.head_view b.now)) }
{
    let Some(a) = a else {
        return b.is_none();
    };
    let Some(b) = b else {
        return false;
    };
    same_text(&a.name, &b.name)
        && same_optional_type(&a.kind, &b.kind)
        && same_optional_accumulator(&a.accumulator, &b.accumulator)
}

#[cycle(same)]
fn same_optional_accumulator(a: &Option<Accumulator>, b: &Option<Accumulator>) -> bool
    ensures { result ≡ same.same_accumulator (view.optional_accumulator (option_map view.accumulator_view a.now)) (view.optional_accumulator (option_map view.accumulator_view b.now)) }
{
    let Some(a) = a else {
        return b.is_none();
    };
    let Some(b) = b else {
        return false;
    };
    same_text(&a.name, &b.name) && same_type(&a.kind, &b.kind) && same_expr(&a.first, &b.first)
}

#[cycle(same)]
fn same_link(a: &Link, b: &Link) -> bool
    ensures { result ≡ same.same_link (view.link_view a.now) (view.link_view b.now) }
{
    a.op == b.op && same_expr(&a.operand, &b.operand)
}

#[cycle(same)]
fn same_item(a: &Item, b: &Item) -> bool
    ensures { result ≡ same.same_item (view.item_view a.now) (view.item_view b.now) }
{
    same_expr(&a.first, &b.first) && same_optional_range(&a.last, &b.last)
}

#[cycle(same)]
fn same_arm(a: &Arm, b: &Arm) -> bool
    ensures { result ≡ same.same_arm (view.arm_view a.now) (view.arm_view b.now) }
{
    same_expr(&a.condition, &b.condition) && same_stmts(&a.body, &b.body)
}

#[cycle(same)]
fn same_map(a: &MapCall, b: &MapCall) -> bool
    ensures { result ≡ same.same_map_call (view.map_view a.now) (view.map_view b.now) }
{
    a.strict == b.strict && same_text(&a.name, &b.name) && same_exprs(&a.args, &b.args)
}

#[cycle(same)]
fn same_resolve(a: &ResolveCall, b: &ResolveCall) -> bool
    ensures { result ≡ same.same_resolve (view.resolve_view a.now) (view.resolve_view b.now) }
{
    a.late == b.late
        && a.word == b.word
        && same_optional_path(&a.within, &b.within)
        && same_optional_filter(&a.filter, &b.filter)
}

#[cycle(same)]
fn same_step(a: &Step, b: &Step) -> bool
    ensures { result ≡ same.same_step (view.step_view a.now) (view.step_view b.now) }
{
    match a {
        Step::Dot {
            name: m,
            args: x,
            ..
        } => {
            let Step::Dot {
                name: n,
                args: y,
                ..
            } = b
            else {
                return false;
            };
            if !same_text(m, n) {
                return false;
            }
            let Some(x) = x else {
                return y.is_none();
            };
            let Some(y) = y else {
                return false;
            };
            same_exprs(x, y)
        }
        Step::Arrow {
            name: m,
            head: h,
            args: x,
            ..
        } => {
            let Step::Arrow {
                name: n,
                head: k,
                args: y,
                ..
            } = b
            else {
                return false;
            };
            same_text(m, n) && same_optional_head(h, k) && same_exprs(x, y)
        }
        Step::DotMap(a) => {
            let Step::DotMap(b) = b else {
                return false;
            };
            same_map(a, b)
        }
        Step::ArrowMap(a) => {
            let Step::ArrowMap(b) = b else {
                return false;
            };
            same_map(a, b)
        }
        Step::DotResolve(a) => {
            let Step::DotResolve(b) = b else {
                return false;
            };
            same_resolve(a, b)
        }
        Step::ArrowResolve(a) => {
            let Step::ArrowResolve(b) = b else {
                return false;
            };
            same_resolve(a, b)
        }
    }
}

#[cycle(same)]
fn same_target(a: &Target, b: &Target) -> bool
    ensures { result ≡ same.same_target (view.target_view a.now) (view.target_view b.now) }
{
    match a {
        Target::Bare { name: m, .. } => {
            let Target::Bare { name: n, .. } = b else {
                return false;
            };
            same_text(m, n)
        }
        Target::ResultVar { .. } => {
            let Target::ResultVar { .. } = b else {
                return false;
            };
            true
        }
        Target::Member {
            object: x,
            name: m,
            ..
        } => {
            let Target::Member {
                object: y,
                name: n,
                ..
            } = b
            else {
                return false;
            };
            same_expr(x, y) && same_text(m, n)
        }
    }
}

#[cycle(same)]
fn same_stmt(a: &Stmt, b: &Stmt) -> bool
    ensures { result ≡ same.same_stmt (view.stmt_view a.now) (view.stmt_view b.now) }
{
    match a {
        Stmt::Var {
            name: m,
            kind: k,
            value: x,
            ..
        } => {
            let Stmt::Var {
                name: n,
                kind: j,
                value: y,
                ..
            } = b
            else {
                return false;
            };
            same_text(m, n) && same_optional_type(k, j) && same_optional_expr(x, y)
        }
        Stmt::Assign {
            target: t,
            adds: p,
            value: x,
            ..
        } => {
            let Stmt::Assign {
                target: u,
                adds: q,
                value: y,
                ..
            } = b
            else {
                return false;
            };
            same_target(t, u) && *p == *q && same_expr(x, y)
        }
        Stmt::Return { value: x, .. } => {
            let Stmt::Return { value: y, .. } = b else {
                return false;
            };
            same_optional_expr(x, y)
        }
        Stmt::Value { value: x, .. } => {
            let Stmt::Value { value: y, .. } = b else {
                return false;
            };
            same_expr(x, y)
        }
        Stmt::If {
            condition: x,
            body: s,
            arms: p,
            otherwise: e,
            ..
        } => {
            let Stmt::If {
                condition: y,
                body: t,
                arms: q,
                otherwise: f,
                ..
            } = b
            else {
                return false;
            };
            if !(same_expr(x, y) && same_stmts(s, t) && same_arms(p, q)) {
                return false;
            }
            let Some(e) = e else {
                return f.is_none();
            };
            let Some(f) = f else {
                return false;
            };
            same_stmts(e, f)
        }
        Stmt::While {
            condition: x,
            body: s,
            ..
        } => {
            let Stmt::While {
                condition: y,
                body: t,
                ..
            } = b
            else {
                return false;
            };
            same_expr(x, y) && same_stmts(s, t)
        }
        Stmt::ForEach {
            source: x,
            name: m,
            kind: k,
            condition: c,
            body: s,
            ..
        } => {
            let Stmt::ForEach {
                source: y,
                name: n,
                kind: j,
                condition: d,
                body: t,
                ..
            } = b
            else {
                return false;
            };
            same_expr(x, y)
                && same_text(m, n)
                && same_optional_type(k, j)
                && same_optional_expr(c, d)
                && same_stmts(s, t)
        }
    }
}

#[cycle(same)]
fn same_expr(a: &Expr, b: &Expr) -> bool
    ensures { result ≡ same.same_expr (view.expr_view a.now) (view.expr_view b.now) }
{
    match a {
        Expr::Int { value: m, .. } => {
            let Expr::Int { value: n, .. } = b else {
                return false;
            };
            *m == *n
        }
        Expr::Str { value: m, .. } => {
            let Expr::Str { value: n, .. } = b else {
                return false;
            };
            same_text(m, n)
        }
        Expr::Bool { value: m, .. } => {
            let Expr::Bool { value: n, .. } = b else {
                return false;
            };
            *m == *n
        }
        Expr::Null { .. } => {
            let Expr::Null { .. } = b else {
                return false;
            };
            true
        }
        Expr::SelfRef { .. } => {
            let Expr::SelfRef { .. } = b else {
                return false;
            };
            true
        }
        Expr::ResultRef { .. } => {
            let Expr::ResultRef { .. } = b else {
                return false;
            };
            true
        }
        Expr::Path(a) => {
            let Expr::Path(b) = b else {
                return false;
            };
            same_path(a, b)
        }
        Expr::Call {
            name: m,
            args: x,
            ..
        } => {
            let Expr::Call {
                name: n,
                args: y,
                ..
            } = b
            else {
                return false;
            };
            same_text(m, n) && same_exprs(x, y)
        }
        Expr::Coll {
            kind: k,
            items: x,
            ..
        } => {
            let Expr::Coll {
                kind: j,
                items: y,
                ..
            } = b
            else {
                return false;
            };
            *k == *j && same_items(x, y)
        }
        Expr::If {
            condition: p,
            yes: x,
            no: s,
            ..
        } => {
            let Expr::If {
                condition: q,
                yes: y,
                no: t,
                ..
            } = b
            else {
                return false;
            };
            same_boxed(p, q) && same_boxed(x, y) && same_boxed(s, t)
        }
        Expr::Object {
            variable: v,
            path: p,
            extent: x,
            body: s,
            ..
        } => {
            let Expr::Object {
                variable: w,
                path: q,
                extent: y,
                body: t,
                ..
            } = b
            else {
                return false;
            };
            same_optional_variable(v, w)
                && same_path(p, q)
                && same_optional_text(x, y)
                && same_stmts(s, t)
        }
        Expr::New {
            path: p,
            extent: x,
            args: s,
            ..
        } => {
            let Expr::New {
                path: q,
                extent: y,
                args: t,
                ..
            } = b
            else {
                return false;
            };
            same_path(p, q) && same_optional_text(x, y) && same_exprs(s, t)
        }
        Expr::Map(a) => {
            let Expr::Map(b) = b else {
                return false;
            };
            same_map(a, b)
        }
        Expr::Resolve(a) => {
            let Expr::Resolve(b) = b else {
                return false;
            };
            same_resolve(a, b)
        }
        Expr::Chain {
            level: k,
            first: p,
            rest: x,
            ..
        } => {
            let Expr::Chain {
                level: j,
                first: q,
                rest: y,
                ..
            } = b
            else {
                return false;
            };
            *k == *j && same_boxed(p, q) && same_links(x, y)
        }
        Expr::Prefix {
            signs: x,
            operand: p,
            ..
        } => {
            let Expr::Prefix {
                signs: y,
                operand: q,
                ..
            } = b
            else {
                return false;
            };
            same_signs(x, y) && same_boxed(p, q)
        }
        Expr::Post {
            first: p,
            steps: x,
            ..
        } => {
            let Expr::Post {
                first: q,
                steps: y,
                ..
            } = b
            else {
                return false;
            };
            same_boxed(p, q) && same_steps(x, y)
        }
    }
}
