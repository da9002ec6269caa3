//! Nodes as they stand, what they share, and errors side by side.
use crate::tests::made::{is_equal, long, made, name, shared};
use cedar_builders::ExprBuilder as _;
use cedar_exprs::{Expr, ExprBuilder, ExprKind, ExprValidationError};
use cedar_names::Loc;
use cedar_terms::{EntityType, EntityUID, Literal};
use std::process::Abort;
use std::rc::{Rc, RcStr};
use test_support::{AsTheyStand, Nothing, Refusing};

// Makes each node as it stands. It is no lawful builder.
type Raw = Refusing<Nothing, AsTheyStand>;

fn boolean(b: bool) -> Expr {
    Expr::val(Literal::Bool(b))
}

fn raw_conjunction(rt: &(impl Abort + AllocGlobal)) -> Expr {
    ExprBuilder::with_data(()).with_expr_kind(ExprKind::And {
        left: shared(rt, boolean(true)),
        right: shared(rt, boolean(false)),
    })
}

// A user's builder of expressions makes every node as it stands.
#[test]
fn a_user_keeps_raw_nodes(rt: HostRuntime) {
    let answer = raw_conjunction(&rt).try_into_expr::<Raw>(rt.alloc());
    assert!(rt; is_equal(made(&rt, answer), raw_conjunction(&rt)));
}

// Whether the three children are one node.
fn is_one(e: &Expr) -> bool {
    match e.expr_kind() {
        ExprKind::If {
            test_expr,
            then_expr,
            else_expr,
        } => Rc::ptr_eq(test_expr, then_expr) && Rc::ptr_eq(then_expr, else_expr),
        _ => false,
    }
}

// A conditional of one shared child.
fn of_one(rt: &(impl Abort + AllocGlobal)) -> Expr {
    let child = shared(rt, long(1));
    Expr::ite_arc(made(rt, child.clone()), made(rt, child.clone()), child)
}

#[test]
fn shared_children_stay_one_node(rt: HostRuntime) {
    assert!(rt; is_one(&of_one(&rt)));
    assert!(rt; is_one(&made(&rt, of_one(&rt).clone(rt.alloc()))));
}

#[test]
fn faults_of_one_name_differ(rt: HostRuntime) {
    let unknown = ExprValidationError::UnknownFunction {
        name: name(&rt, "f"),
    };
    let without = ExprValidationError::MissingReceiver {
        name: name(&rt, "f"),
    };
    assert!(rt; !is_equal(unknown, without));
}

fn text(rt: &(impl Abort + AllocGlobal), s: &str) -> RcStr {
    made(rt, RcStr::from_str(rt.alloc(), s))
}

// `Org::User::"a".age`, at a place.
fn age_of_a_user(rt: &(impl Abort + AllocGlobal)) -> Expr {
    let alloc = rt.alloc();
    let user = EntityUID::new(EntityType::from(name(rt, "Org::User")), text(rt, "a"));
    let entity = Expr::val(Literal::EntityUID(made(rt, Rc::new(alloc, user))));
    let place = Loc::new(3, 7, text(rt, "the text"));
    let age = Expr::get_attr(alloc, entity, text(rt, "age"));
    made(rt, age).with_maybe_source_loc(Some(place))
}

// What `{:?}` shows of it.
const DEBUG_TEXT: &str =
    "Expr { expr_kind: GetAttr { expr: Expr { expr_kind: Lit(EntityUID(EntityUID { \
     ty: EntityType(Name(InternalName { id: Id(\"User\"), path: [Id(\"Org\")] })), \
     eid: Eid(\"a\") })), source_loc: None, data: () }, attr: \"age\" }, \
     source_loc: Some(Loc { start: 3, stop: 7, src: \"the text\" }), data: () }";

#[test]
fn expressions_have_debug_texts(rt: HostRuntime) {
    let text = made(&rt, format!(in rt.alloc(); "{:?}", age_of_a_user(&rt)));
    assert!(rt; text.as_str() == DEBUG_TEXT);
}
