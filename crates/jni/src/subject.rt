//! What the functions of the JNI work on.

ghost use Rattle.std.specs.Prelude.{◌≡◌};
ghost use Rattle.jni.specs.Subjects.{subject_of};

use crate::function::JniFunction;

/// What a function works on, by the sections of the JNI Specification, chapter 4.
#[derive(Clone, Copy)]
pub enum Subject {
    /// Classes, and the IDs of their fields.
    Classes,
    /// Local, global and weak global references, and frames.
    References,
    /// The fields of objects.
    Fields,
    /// The static fields of classes.
    Statics,
    /// Arrays and strings.
    Arrays,
    /// Arrays and strings, and local arrays.
    Regions,
    /// Arrays and strings, and element buffers.
    Buffers,
    /// The pending exception.
    Exceptions,
    /// The monitors of objects.
    Monitors,
}

impl JniFunction {
    /// What the function works on.
    #[inline]
    pub fn subject(self) -> Subject
        ensures { result ≡ subject_of self }
    {
        match self {
            JniFunction::NewLocalRef | JniFunction::NewGlobalRef => Subject::References,
            JniFunction::DeleteLocalRef | JniFunction::DeleteGlobalRef => Subject::References,
            JniFunction::NewWeakGlobalRef => Subject::References,
            JniFunction::DeleteWeakGlobalRef => Subject::References,
            JniFunction::IsSameObject | JniFunction::EnsureLocalCapacity => Subject::References,
            JniFunction::PushLocalFrame | JniFunction::PopLocalFrame => Subject::References,
            JniFunction::GetField(_) | JniFunction::SetField(_) => Subject::Fields,
            JniFunction::GetObjectField | JniFunction::SetObjectField => Subject::Fields,
            JniFunction::GetStaticField(_) | JniFunction::SetStaticField(_) => Subject::Statics,
            JniFunction::GetStaticObjectField | JniFunction::SetStaticObjectField => {
                Subject::Statics
            }
            JniFunction::GetArrayLength | JniFunction::GetStringLength => Subject::Arrays,
            JniFunction::NewArray(_) | JniFunction::NewObjectArray => Subject::Arrays,
            JniFunction::GetObjectArrayElement | JniFunction::SetObjectArrayElement => {
                Subject::Arrays
            }
            JniFunction::NewStringUTF => Subject::Arrays,
            JniFunction::GetArrayRegion(_) | JniFunction::SetArrayRegion(_) => Subject::Regions,
            JniFunction::GetStringRegion => Subject::Regions,
            JniFunction::GetBuffer(_) | JniFunction::ReleaseBuffer(_) => Subject::Buffers,
            JniFunction::Throw | JniFunction::ThrowNew => Subject::Exceptions,
            JniFunction::ExceptionClear | JniFunction::FatalError => Subject::Exceptions,
            JniFunction::ExceptionOccurred | JniFunction::ExceptionCheck => Subject::Exceptions,
            JniFunction::MonitorEnter | JniFunction::MonitorExit => Subject::Monitors,
            _ => Subject::Classes,
        }
    }
}
