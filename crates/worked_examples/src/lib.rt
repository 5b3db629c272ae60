// Worked examples of task files and of judging joint plans, proved or run as tests.
// Knows files only as bytes, and answers as number and place.
#![tactic(auto)]

ghost use Rattle.std.specs.Prelude.{◌≡◌, Ok};
ghost use Rattle.refusals.specs.Answers.{seen};
ghost use Rattle.task_form.specs.Form.{form};
ghost use Rattle.worked_examples.specs.Shown.{shown};
ghost use Rattle.worked_examples.specs.TrayLift.{tray};

#[cfg(test)]
mod damaged;

// Two stations lift a tray, left by move 0 and right by move 1. Fluent 2 is the load, which falls where one side is
// lifted alone.
const TRAY_LIFT: [u8; 45] =
    *b"\x01\x02\x03\x02\x02\x02\x03\x00\x03\x01\x03\x02\x04\x00\x05\x80\x07\x0a\x00\x07\x08\x81\x08\x02\x09\x81\x0a\x82\x04\x01\x05\x81\x07\x0a\x01\x07\x08\x80\x08\x02\x09\x80\x0a\x82\x0f";

// The task file of the tray lift.
pub fn tray_lift() -> [u8; 45]
    ensures { seen shown (form result) ≡ Ok tray }
{
    TRAY_LIFT
}

#[cfg(test)]
mod tests {
    use crate::damaged::{COMMANDS, EFFECTS, LISTS, OPERANDS, ORDER, SIZES};
    use crate::{TRAY_LIFT, tray_lift};
    use coupling::Written;
    use refusals::Fault;
    use sequencer::judge_joint;
    use std::alloc::Global;
    use std::test::Fail;
    use task::Task;

    const NONE: u8 = 0xff;

    // A plan of steps for two stations.
    fn plan(heap: Global, steps: &[(u8, u8)]) -> Result<Vec<u8>, Fail> {
        let mut bytes = Vec::new(heap);
        for &(left, right) in steps {
            bytes.extend_from_slice(&[0x31, left, right])?;
            bytes.extend_from_slice(&[NONE; 14])?;
        }
        Ok(bytes)
    }

    // The refusal's number and place, or none where the answer is a value.
    fn refusal<T: Drop>(answer: Result<T, Fault>) -> Result<Option<(u8, usize)>, Fail> {
        match answer {
            Ok(_) => Ok(None),
            Err(Fault::Refused(e)) => Ok(Some((e.question.number(), e.place))),
            Err(Fault::Memory) => Err(Fail::new("no memory")),
        }
    }

    // The verdict on a plan for the tray lift.
    fn lifted(heap: Global, steps: &[(u8, u8)]) -> Result<Option<(u8, usize)>, Fail> {
        let Ok(task) = Task::read(heap, &TRAY_LIFT) else {
            return Err(Fail::new("the tray lift is refused"));
        };
        let written = Written::new(heap, &task)?;
        let bytes = plan(heap, steps)?;
        refusal(judge_joint(heap, &TRAY_LIFT, &written, &bytes))
    }

    // The refusal of a task file.
    fn read(heap: Global, file: &[u8]) -> Result<Option<(u8, usize)>, Fail> {
        refusal(Task::read(heap, file))
    }

    #[test]
    fn tray_lift_plans(rt: HostRuntime) -> Result<(), Fail> {
        let heap = rt.alloc();
        assert_eq!(rt; lifted(heap, &[(0, 1)])?, None, "both together");
        assert_eq!(rt;
            lifted(heap, &[(0, NONE), (NONE, 1)])?,
            Some((16, 2)),
            "in turn"
        );
        assert_eq!(rt; lifted(heap, &[])?, Some((16, 0)), "no step");
        assert_eq!(rt;
            lifted(heap, &[(0, NONE), (0, NONE)])?,
            Some((12, 1)),
            "twice"
        );
        assert_eq!(rt; lifted(heap, &[(1, NONE)])?, Some((7, 0)), "wrong station");
        assert_eq!(rt; lifted(heap, &[(2, NONE)])?, Some((4, 0)), "no such move");
        Ok(())
    }

    #[test]
    fn damaged_tasks(rt: HostRuntime) -> Result<(), Fail> {
        let heap = rt.alloc();
        assert_eq!(rt; read(heap, &[])?, Some((2, 0)), "empty");
        assert_eq!(rt; read(heap, &[0x01, 0x02, 0x03])?, Some((2, 0)), "truncated");
        assert_eq!(rt; read(heap, &TRAY_LIFT[..44])?, Some((2, 44)), "no end");
        assert_eq!(rt;
            read(heap, &[0x01, 0x01, 0x01, 0x01, 0x0b])?,
            Some((2, 4)),
            "unknown"
        );
        assert_eq!(rt;
            read(heap, &[0x01, 0x01, 0x01, 0x01, 0x0f])?,
            Some((3, 4)),
            "no move"
        );
        assert_eq!(rt; read(heap, &TRAY_LIFT)?, None);
        Ok(())
    }

    #[test]
    fn table_of_damaged_tasks(rt: HostRuntime) -> Result<(), Fail> {
        let heap = rt.alloc();
        assert_eq!(rt; read(heap, &tray_lift())?, None, "not damaged");
        for cases in [COMMANDS, ORDER, SIZES, OPERANDS, LISTS, EFFECTS] {
            for case in cases {
                assert_eq!(rt; read(heap, case.file)?, case.refusal, "{}", case.why);
            }
        }
        Ok(())
    }

    // A task of 64 moves, filled with needs and results up to the limit of its file.
    fn longest_task(heap: Global) -> Result<Vec<u8>, Fail> {
        let mut bytes = Vec::new(heap);
        bytes.extend_from_slice(&[0x01, 0x01, 0x80, 0x40])?;
        for a in 0..64u8 {
            bytes.extend_from_slice(&[0x04, 0x00])?;
            if a < 31 {
                for k in 0..128u8 {
                    bytes.extend_from_slice(&[0x05, k])?;
                }
            }
        }
        bytes.push(0x07)?;
        for k in 0..61u8 {
            bytes.extend_from_slice(&[0x0a, k])?;
        }
        bytes.push(0x0f)?;
        Ok(bytes)
    }

    #[test]
    fn tasks_at_their_limit(rt: HostRuntime) -> Result<(), Fail> {
        let heap = rt.alloc();
        let mut task = longest_task(heap)?;
        assert_eq!(rt; task.len(), 8192, "the longest task");
        assert_eq!(rt; read(heap, &task)?, None, "8,192 bytes");
        task.push(0x00)?;
        assert_eq!(rt; read(heap, &task)?, Some((1, 0)), "8,193 bytes");
        Ok(())
    }

    #[test]
    fn plans_at_their_limit(rt: HostRuntime) -> Result<(), Fail> {
        let heap = rt.alloc();
        let mut steps = vec![in heap; (NONE, NONE); 256]?;
        assert_eq!(rt; lifted(heap, &steps)?, Some((16, 256)), "256 steps");
        steps.push((NONE, NONE))?;
        assert_eq!(rt; lifted(heap, &steps)?, Some((1, 0)), "257 steps");
        Ok(())
    }
}
