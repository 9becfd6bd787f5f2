// Containers of nodes.
use crate::walks::trees::BOTH;
use std::alloc::Global;
use std::fmt::Write;
use std::process::Abort;
use std::rc::Rc;
use std::test::Fail;
use vx_test_support::{expression, reads};
use vx_tree::{Expression, Scalar, VortexError, VortexResult};
use vx_walk::TraversalOrder::{Continue, Skip, Stop};
use vx_walk::{NodeContainer, Transformed, apply_ref_elements};

/// The trees of those texts.
fn items(alloc: Global, texts: &[&str]) -> Result<Vec<Expression>, Fail> {
    let mut items = Vec::new(alloc);
    for text in texts {
        items.push(expression(alloc, text)?)?;
    }
    Ok(items)
}

/// `$.a`, `$.b`, `$.c`
fn three(alloc: Global) -> Result<Vec<Expression>, Fail> {
    items(alloc, &["a", "b", "c"])
}

fn both(alloc: Global) -> Result<Expression, Fail> {
    Ok(expression(alloc, BOTH)?)
}

fn zero(alloc: Global) -> VortexResult<Expression> {
    vx_build::lit(alloc, Scalar::from_i32(0))
}

/// Asserts that the expressions print so, one space apart.
fn print(rt: &impl Abort, alloc: Global, expressions: &[Expression], wanted: &str) {
    let mut text = String::new(alloc);
    for expression in expressions {
        let written = write!(text, "{expression} ");
        assert!(rt; written.is_ok());
    }
    assert_eq!(rt; text.as_str().trim(), wanted);
}

#[test]
fn elements_are_mapped_in_order_until_stop(rt: HostRuntime) -> Result<(), Fail> {
    let alloc = rt.alloc();
    let elements = three(alloc)?;
    let pair = (items(alloc, &["a"])?, items(alloc, &["b"])?);
    let mapped = elements.map_elements(alloc, |element: Expression| {
        drop(element);
        Ok(Transformed {
            value: zero(alloc)?,
            order: Stop,
            changed: true,
        })
    });
    let mapped = mapped.expect(&rt, "a vector");
    assert!(rt; mapped.changed);
    assert!(rt; mapped.order == Stop);
    print(&rt, alloc, mapped.value.as_slice(), "0i32 $.b $.c");
    let kept = pair.map_elements(alloc, |element: Expression| Ok(Transformed::no(element)));
    let kept = kept.expect(&rt, "a pair");
    assert!(rt; !kept.changed);
    print(&rt, alloc, kept.value.0.as_slice(), "$.a");
    print(&rt, alloc, kept.value.1.as_slice(), "$.b");
    Ok(())
}

#[test]
fn visits_end_at_a_refusal_or_stop(rt: HostRuntime) -> Result<(), Fail> {
    let alloc = rt.alloc();
    let elements = three(alloc)?;
    let mut pairs = Vec::new(alloc);
    for _ in 0..2 {
        pairs.push((expression(alloc, "a")?, expression(alloc, "b")?))?;
    }
    let mut calls = 0u32;
    let answer = elements.apply_elements(|_element: &Expression| {
        calls = calls.saturating_add(1);
        if calls == 2 {
            return Err(VortexError::NotBool);
        }
        Ok(Skip)
    });
    assert!(rt; matches!(answer, Err(VortexError::NotBool)));
    assert_eq!(rt; calls, 2);
    let mut calls = 0u32;
    let answer = apply_ref_elements(pairs.as_slice(), |_element: &Expression| {
        calls = calls.saturating_add(1);
        Ok(if calls == 3 { Stop } else { Skip })
    });
    assert!(rt; matches!(answer, Ok(Stop)));
    assert_eq!(rt; calls, 3);
    Ok(())
}

/// Asserts how many elements the container has.
fn holds<C: NodeContainer<Expression> + Drop>(rt: &impl Abort, container: C, wanted: u32) {
    let mut calls = 0u32;
    let answer = container.apply_elements(|_element: &Expression| {
        calls = calls.saturating_add(1);
        Ok(Continue)
    });
    assert!(rt; answer.expect(rt, "no refusal") == Continue);
    assert_eq!(rt; calls, wanted);
}

#[test]
fn containers_hold_their_elements(rt: HostRuntime) -> Result<(), Fail> {
    let alloc = rt.alloc();
    holds(&rt, both(alloc)?, 1);
    holds(&rt, (both(alloc)?, both(alloc)?), 2);
    holds(&rt, three(alloc)?, 3);
    holds(&rt, Box::new(alloc, both(alloc)?)?, 1);
    holds(&rt, Box::new(alloc, three(alloc)?)?, 3);
    holds(&rt, Rc::new(alloc, both(alloc)?)?, 1);
    holds(&rt, (three(alloc)?, three(alloc)?), 6);
    Ok(())
}

/// The container with a literal for each element, each of which is handed back as another.
fn zeroed<C: NodeContainer<Expression>>(rt: &impl Abort, alloc: Global, container: C) -> C {
    let mapped = container.map_elements(alloc, |element: Expression| {
        drop(element);
        Ok(Transformed::yes(zero(alloc)?))
    });
    let mapped = mapped.expect(rt, "a container");
    assert!(rt; mapped.changed);
    mapped.value
}

#[test]
fn elements_are_mapped_alone_boxed_and_shared(rt: HostRuntime) -> Result<(), Fail> {
    let alloc = rt.alloc();
    let one = both(alloc)?;
    let boxed = Box::new(alloc, three(alloc)?)?;
    let shared = Rc::new(alloc, both(alloc)?)?;
    assert!(rt; reads(&zeroed(&rt, alloc, one), "0i32"));
    let boxed = zeroed(&rt, alloc, boxed);
    print(&rt, alloc, boxed.as_slice(), "0i32 0i32 0i32");
    let apart = zeroed(&rt, alloc, shared.clone().expect(&rt, "memory"));
    assert!(rt; reads(&*apart, "0i32"));
    assert!(rt; reads(&*shared, "($.a and $.b)"));
    Ok(())
}
